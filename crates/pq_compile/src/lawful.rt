//! What is read is lawful: it meets what calls that come after the reading ask for.
ghost use Rattle.std.specs.Prelude.{◌≡◌, ◌<◌, ℕ, List, Ok, All, length};
ghost use Rattle.pq_fields.specs.Pred.{PredTree, IsLawfulPred, IsPredOver};
ghost use Rattle.pq_tree.specs.Trees.{Tree};
ghost use Rattle.pq_model.specs.Topology.{Topology};
ghost use Rattle.pq_topo.specs.Named.{IsNamedTopology};
ghost use Rattle.pq_pred.specs.Named.{MayStand};
ghost use Rattle.pq_pred.specs.Predicates.{pred_of};
ghost use Rattle.pq_policy.specs.Policy.{PolicyTree, IsLawfulPolicy, IsPolicyOver};
ghost use Rattle.pq_policy.specs.Resolved.{policy_of};
ghost use Rattle.pq_query.specs.Atoms.{query_atoms};
ghost use Rattle.pq_query.specs.Lawful.{IsLawfulQuery, IsQueryOver};
ghost use Rattle.pq_query.specs.Query.{QueryTree};
ghost use Rattle.pq_query.specs.Resolved.{query_of};
ghost use Rattle.pq_compile.specs.Documents.{DocumentTree, Spells};
ghost use Rattle.pq_compile.specs.Lawful.{IsLawfulDocument};

/// A predicate that is read for a network is lawful: numbers fit their fields, and no list of operands is empty. Its switches
/// are those of the network, and its ports are from 1 to 4294967040.
pub fn predicates_that_are_read_are_lawful()
    ensures lawful { (T : Topology) → IsNamedTopology T → (bytes : List ℕ) (t : Tree) (p : PredTree) → pred_of T bytes t ≡ Ok p → IsLawfulPred p }
    ensures named { (T : Topology) (bytes : List ℕ) (t : Tree) (p : PredTree) → pred_of T bytes t ≡ Ok p → IsPredOver (MayStand T) p }
{}

/// A policy that is read for a network is lawful: its predicates are, what it writes are numbers of fields that may be
/// written, ports are from 1 to 4294967040, and no list of operands is empty. Its switches are those of the network.
pub fn policies_that_are_read_are_lawful()
    ensures lawful { (T : Topology) → IsNamedTopology T → (bytes : List ℕ) (t : Tree) (p : PolicyTree) → policy_of T bytes t ≡ Ok p → IsLawfulPolicy p }
    ensures named { (T : Topology) (bytes : List ℕ) (t : Tree) (p : PolicyTree) → policy_of T bytes t ≡ Ok p → IsPolicyOver (MayStand T) p }
{}

/// A query that is read for a network is lawful: its predicates are, its groups are of fields with values that fit and
/// differ, and no list of operands is empty. Its switches are those of the network, and its ports are from 1 to 4294967040.
pub fn queries_that_are_read_are_lawful()
    ensures lawful { (T : Topology) → IsNamedTopology T → (bytes : List ℕ) (t : Tree) (q : QueryTree) → query_of T bytes t ≡ Ok q → IsLawfulQuery q }
    ensures named { (T : Topology) (bytes : List ℕ) (t : Tree) (q : QueryTree) → query_of T bytes t ≡ Ok q → IsQueryOver (MayStand T) q }
{}

/// A document that a text spells is lawful: its topology is that of a network, it has at most 1,024 parts and 256 queries
/// with names that differ, and all policies and queries are lawful and name only switches of the network.
pub fn documents_that_are_read_are_lawful()
    ensures { (bytes : List ℕ) (d : DocumentTree) → Spells bytes d → IsLawfulDocument d }
{}

/// A query has fewer atoms than its text has bytes.
pub fn queries_that_are_read_have_few_atoms()
    ensures { (bytes : List ℕ) (d : DocumentTree) → Spells bytes d → All (λ q. query_atoms q.1 < length bytes) d.queries }
{}
