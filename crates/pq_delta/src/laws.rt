//! Laws of deltas: calls that do nothing, for what their contracts say.
ghost use Rattle.std.specs.Prelude.{List, All};
ghost use Rattle.std.specs.List.{AllByRecursion};
ghost use Rattle.pq_model.specs.Install.{Install, IsLawfulInstall, IsLawfulList};
ghost use Rattle.pq_model.specs.declared.message.Message.{Message};
ghost use Rattle.pq_model.specs.Orders.{AreSame, IsLawfulOrder};
ghost use Rattle.pq_model.specs.Renewal.{Renewal, renewal_messages, renewed};
ghost use Rattle.pq_model.specs.SwitchMachine.{Tables, applies_all};
ghost use Rattle.pq_delta.specs.Delta.{AreShort, delta, switch_delta};
ghost use Rattle.pq_delta.specs.Turning.{AllFit, HasFewGroups, IsNumberedRenewal};

/// Law: a delta of two renewals turns tables that are the same as those that the old one leaves into tables that are the same as
/// those that the new one leaves, in whatever lawful order a switch processes its messages (OpenFlow 1.3.5, section 6.1.3). In
/// the order in which they are written each of them does what it says and nothing else: no Add takes the place of an entry, no
/// ADD meets a group, and no DELETE takes entries along.
pub fn deltas_turn_tables()
    ensures turned { (old new : Renewal) → IsNumberedRenewal old → IsNumberedRenewal new → (t : Tables) (order : List Message)
        → AreSame (renewed old) t → IsLawfulOrder (switch_delta (renewal_messages old) (renewal_messages new)) order
        → AreSame (renewed new) (applies_all t order) }
    ensures fit { (old new : Renewal) → IsNumberedRenewal old → IsNumberedRenewal new
        → AllFit (renewed old) (switch_delta (renewal_messages old) (renewal_messages new)) }
{}

/// Law: the messages of a delta of lawful installs are lawful, if there are no more groups than numbers of groups, and no more
/// messages to a switch than transaction ids, as where `delta` gives them.
pub fn deltas_are_lawful()
    ensures { (old new : Install) → IsLawfulInstall old → IsLawfulInstall new → All HasFewGroups old.messages → All HasFewGroups new.messages
        → AreShort (delta old new) → AllByRecursion (λ p. IsLawfulList p.1) (delta old new) }
{}
