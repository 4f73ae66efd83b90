ghost use Rattle.std.specs.Prelude.{◌≡◌, List};
ghost use Rattle.pq_model.specs.declared.message.Message.{Message};
ghost use Rattle.pq_model.specs.SwitchMachine.{Tables, applies, applies_all, sends};
ghost use Rattle.pq_model.specs.Orders.{AreSame, HaveOwnPriorities, IsFreeOfOrder, IsLawfulOrder};
ghost use Rattle.pq_model.specs.Tagged.{TaggedPacket};

/// To hold the same entries, in any order, and the same groups is an equivalence of tables, and
/// each message keeps it. Like all laws here it does nothing when it runs: a caller runs it to
/// know this.
pub fn messages_keep_tables_the_same()
    ensures reflexive { (t : Tables) → AreSame t t }
    ensures symmetric { (s t : Tables) → AreSame s t → AreSame t s }
    ensures transitive { (s t u : Tables) → AreSame s t → AreSame t u → AreSame s u }
    ensures kept { (s t : Tables) (m : Message) → AreSame s t → AreSame (applies s m) (applies t m) }
{}

/// A switch may process messages in each order in which none passes a barrier (OpenFlow 1.3.5,
/// section 6.1.3). If each two messages with no barrier between them commute, all these orders
/// leave the same tables, whatever the tables held before.
pub fn lawful_orders_leave_the_same_tables()
    ensures { (s t : Tables) → AreSame s t → (ms order : List Message) → IsLawfulOrder ms order → IsFreeOfOrder ms
        → AreSame (applies_all s ms) (applies_all t order) }
{}

/// Tables that are the same send the same for each packet, if no two entries of one table have one
/// priority: then the order in which entries were added doesn't matter.
pub fn same_tables_send_the_same()
    ensures { (s t : Tables) → AreSame s t → HaveOwnPriorities s.entries → (x : TaggedPacket) → sends s x ≡ sends t x }
{}
