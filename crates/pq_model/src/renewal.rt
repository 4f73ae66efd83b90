ghost use Rattle.std.specs.Prelude.{◌≡◌, List};
ghost use Rattle.pq_model.specs.declared.message.Message.{Message};
ghost use Rattle.pq_model.specs.Orders.{AreSame, IsLawfulOrder};
ghost use Rattle.pq_model.specs.Renewal.{IsRenewing, Renewal, renewal_messages, renewed};
ghost use Rattle.pq_model.specs.SwitchMachine.{Tables, applies_all, sends};
ghost use Rattle.pq_model.specs.Tagged.{TaggedPacket};

/// Messages that delete all and then add groups and entries, with a barrier after each of the
/// three, leave what they add and nothing else, whatever the switch held before and in whatever
/// lawful order it processes them (OpenFlow 1.3.5, section 6.1.3). So it sends what these tables
/// send.
pub fn renewals_leave_what_they_add()
    ensures left { (r : Renewal) → IsRenewing r → (t : Tables) (order : List Message) → IsLawfulOrder (renewal_messages r) order
        → AreSame (renewed r) (applies_all t order) }
    ensures sent { (r : Renewal) → IsRenewing r → (t : Tables) (order : List Message) → IsLawfulOrder (renewal_messages r) order
        → (x : TaggedPacket) → sends (applies_all t order) x ≡ sends (renewed r) x }
{}
