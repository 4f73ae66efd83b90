ghost use Rattle.std.specs.Prelude.{◌≡◌, ◌≢◌, false};
ghost use Rattle.pq_model.specs.declared.flow_mod.FlowCommand.TheVariants.{Add, DeleteStrict};
ghost use Rattle.pq_model.specs.declared.group_mod.GroupCommand.TheVariants.{Delete};
ghost use Rattle.pq_model.specs.declared.message.Message.{Message};
ghost use Rattle.pq_model.specs.declared.message.Message.TheVariants.{Flow, Group};
ghost use Rattle.pq_model.specs.Mods.{FlowValue, GroupValue};
ghost use Rattle.pq_model.specs.Orders.{Commute};
ghost use Rattle.pq_model.specs.SwitchMachine.{entry_of, is_placed};

/// To commute is symmetric.
pub fn commuting_is_symmetric()
    ensures { (m n : Message) → Commute m n → Commute n m }
{}

/// Two flow mods commute if neither is an Add, or if one adds an entry in a place, of table, match
/// and priority, in which the other neither adds nor deletes one.
pub fn flow_mods_commute()
    ensures deletes { (f g : FlowValue) → f.command ≢ Add → g.command ≢ Add → Commute (Flow f) (Flow g) }
    ensures adds { (f g : FlowValue) → f.command ≡ Add → g.command ≡ Add → is_placed f (entry_of g) ≡ false → Commute (Flow f) (Flow g) }
    ensures add_and_delete { (f g : FlowValue) → f.command ≡ Add → g.command ≡ DeleteStrict → is_placed g (entry_of f) ≡ false → Commute (Flow f) (Flow g) }
{}

/// A flow mod that is not an Add commutes with every group mod; two group mods commute if both are
/// DELETEs, or if neither is one and their groups differ.
pub fn group_mods_commute()
    ensures with_flow_mods { (f : FlowValue) (g : GroupValue) → f.command ≢ Add → Commute (Flow f) (Group g) }
    ensures deletes { (f g : GroupValue) → f.command ≡ Delete → g.command ≡ Delete → Commute (Group f) (Group g) }
    ensures others { (f g : GroupValue) → f.command ≢ Delete → g.command ≢ Delete → f.group ≢ g.group → Commute (Group f) (Group g) }
{}
