ghost use Rattle.std.specs.Prelude.{◌≡◌, ◌≢◌, ℕ, List, ◌∷◌, ◌++◌, map, nat_eq, true};
ghost use Rattle.std.specs.List.{AllByRecursion, IsDistinct, list_all};
ghost use Rattle.std.specs.FinMap.{contains_key};
ghost use Rattle.pq_model.specs.declared.flow_mod.FlowCommand.TheVariants.{Add};
ghost use Rattle.pq_model.specs.declared.group_mod.GroupCommand.TheVariants.{Delete};
ghost use Rattle.pq_model.specs.declared.message.Message.{Message};
ghost use Rattle.pq_model.specs.declared.message.Message.TheVariants.{Barrier, Flow, Group};
ghost use Rattle.pq_model.specs.Mods.{FlowValue, GroupValue};
ghost use Rattle.pq_model.specs.Orders.{HaveOwnPriorities, IsFreeOfOrder};
ghost use Rattle.pq_model.specs.SwitchMachine.{Tables, applies_all, entry_of, groups_named};

/// Two lists of messages that are free of order are so together, with a barrier between them.
pub fn blocks_between_barriers_are_free_of_order()
    ensures { (xid : ℕ) (ms block : List Message) → IsFreeOfOrder block → IsFreeOfOrder ms → IsFreeOfOrder (block ++ Barrier xid ∷ ms) }
{}

/// Adds are free of order if their entries differ in priority wherever they are of one table.
pub fn adds_are_free_of_order()
    ensures { (fs : List FlowValue) → AllByRecursion (λ f. f.command ≡ Add) fs → HaveOwnPriorities (map entry_of fs) → IsFreeOfOrder (map Flow fs) }
{}

/// Group mods that are not DELETEs are free of order if each is of a group of its own.
pub fn group_mods_are_free_of_order()
    ensures { (gs : List GroupValue) → AllByRecursion (λ g. g.command ≢ Delete) gs → IsDistinct nat_eq (map (λ g. g.group) gs) → IsFreeOfOrder (map Group gs) }
{}

/// Flow mods that are not Adds and DELETEs of groups are free of order.
pub fn deletes_are_free_of_order()
    ensures { (fs : List FlowValue) (gs : List GroupValue) → AllByRecursion (λ f. f.command ≢ Add) fs
        → AllByRecursion (λ g. g.command ≡ Delete) gs → IsFreeOfOrder (map Flow fs ++ map Group gs) }
{}

/// Adds whose groups are there put their entries after those that are there, if all of these
/// differ in priority wherever they are of one table.
pub fn adds_leave_their_entries()
    ensures { (fs : List FlowValue) (t : Tables) → AllByRecursion (λ f. f.command ≡ Add) fs
        → AllByRecursion (λ f. list_all (contains_key t.groups) (groups_named f.actions) ≡ true) fs
        → HaveOwnPriorities (t.entries ++ map entry_of fs)
        → applies_all t (map Flow fs) ≡ record t { entries = t.entries ++ map entry_of fs } }
{}
