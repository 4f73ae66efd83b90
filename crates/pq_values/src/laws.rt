//! What is true of all stated values.
ghost use Rattle.std.specs.Prelude.{◌≡◌, ◌↔◌, ℕ, List, All};
ghost use Rattle.std.specs.declared.option.Option.TheVariants.{None};
ghost use Rattle.pq_model.specs.Topology.{Topology};
ghost use Rattle.pq_fields.specs.Writes.{Written};
ghost use Rattle.pq_topo.specs.Named.{IsNamedTopology};
ghost use Rattle.pq_pred.specs.Named.{MayStand};
ghost use Rattle.pq_policy.specs.Policy.{IsPolicyOver, Joint, PolicyTree, policies};
ghost use Rattle.pq_query.specs.Lawful.{IsQueryOver};
ghost use Rattle.pq_query.specs.Query.{QueryTree};
ghost use Rattle.pq_store.specs.Tree.{Tree};
ghost use Rattle.pq_forward.specs.Forward.{FitAsForward, FitAsForwards, IsForward, IsForwards};
ghost use Rattle.pq_classes.specs.Room.{FitAsQueries};
ghost use Rattle.pq_values.specs.Limits.{first_full};
ghost use Rattle.pq_values.specs.Ports.{HasPorts, TestsPortsOrNone, TestsQueries};
ghost use Rattle.pq_values.specs.Room.{AreFewStated, AreOver, HaveRoom};
ghost use Rattle.pq_values.specs.Stated.{Stated, stated};

/// No field is above its limit exactly where no first one is. It does nothing when it runs.
pub fn no_field_is_full()
    ensures { (ss : List Stated) → (first_full ss ≡ None) ↔ AreFewStated ss }
{}

/// Where no field is above its limit, there is room for all numbers of the network, of the policies and of the queries
/// together. It does nothing when it runs.
pub fn stated_values_have_room()
    ensures { (T : Topology) (ps : List PolicyTree) (qs : List QueryTree) → AreOver T ps qs → first_full (stated T ps qs) ≡ None → HaveRoom T ps qs }
{}

/// Where there is room for all numbers together, the policies may be one diagram, each of them may, and so may the queries.
/// It does nothing when it runs.
pub fn room_serves_all()
    ensures policies { (T : Topology) (ps : List PolicyTree) (qs : List QueryTree) → HaveRoom T ps qs → FitAsForwards T (policies ps) }
    ensures policy { (T : Topology) (ps : List PolicyTree) (qs : List QueryTree) → HaveRoom T ps qs → All (FitAsForward T) ps }
    ensures queries { (T : Topology) (ps : List PolicyTree) (qs : List QueryTree) → HaveRoom T ps qs → FitAsQueries T qs }
{}

/// The diagrams of policies that may be in a document about a network test and write only numbers of ports, from 1 to
/// 4294967040, where they test or write a port. It does nothing when it runs.
pub fn policies_have_ports()
    ensures policy { (T : Topology) (p : PolicyTree) (t : Tree (List Written)) → IsNamedTopology T → IsPolicyOver (MayStand T) p
        → IsForward T p t → HasPorts t }
    ensures policies { (T : Topology) (ps : List PolicyTree) (joint : Joint) (t : Tree (List Written)) → IsNamedTopology T → All (IsPolicyOver (MayStand T)) ps
        → IsForwards T joint (policies ps) t → HasPorts t }
{}

/// A diagram that tests only what queries that may be in a document about a network need tests only numbers of ports and
/// port 0, where it tests a port. It does nothing when it runs.
pub fn queries_have_ports()
    ensures { (T : Topology) (qs : List QueryTree) (t : Tree ℕ) → IsNamedTopology T → All (IsQueryOver (MayStand T)) qs
        → TestsQueries T qs t → TestsPortsOrNone t }
{}
