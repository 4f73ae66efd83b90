ghost use Rattle.pq_layout.specs.Messages.{ArrivingTrees, LeavingTrees};
ghost use Rattle.pq_lookup.specs.Sent.{AreFilled, SwitchSends, TablesSend, TablesSendInOrder, TreesRenew};

/// Law. Tables that are filled from trees send for each packet exactly the copies of the leaves
/// that it reaches: that of its arrival, then those of its departures under the new tag.
pub fn tables_send()
    ensures copies { (first : ArrivingTrees) (second : LeavingTrees) → AreFilled first second → TablesSend first second }
    ensures sends { (first : ArrivingTrees) (second : LeavingTrees) → AreFilled first second → TablesSendInOrder first second }
{}

/// Law. The messages of trees renew a switch's tables: all that was there is deleted, each group
/// and each entry of a table has a place of its own, and each group that an entry names is added.
pub fn renewing()
    ensures { (first : ArrivingTrees) (second : LeavingTrees) → AreFilled first second → TreesRenew first second }
{}

/// Law. Whatever a switch held before, and in whatever lawful order it processes the messages of
/// trees, it then sends for each packet exactly the copies of the leaves that it reaches, in order.
pub fn switch_sends()
    ensures { (first : ArrivingTrees) (second : LeavingTrees) → AreFilled first second → SwitchSends first second }
{}
