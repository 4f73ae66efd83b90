//! What is true of all policies.
ghost use Rattle.std.specs.Prelude.{◌≡◌, ℕ, List};
ghost use Rattle.pq_fields.specs.Packet.{Numbers};
ghost use Rattle.pq_model.specs.Topology.{Topology};
ghost use Rattle.pq_policy.specs.Policy.{IsListOf, PolicyTree, yields};

/// What a policy yields on a packet has one list in packet order, so that the lists are a function of the policy, the
/// topology and the packet. It does nothing when it runs: a caller that compares such lists may call it to know this.
pub fn policies_yield_one_list()
    ensures { (t : Topology) (p : PolicyTree) (x : Numbers) (ys zs : List Numbers) → IsListOf (yields t p x) ys → IsListOf (yields t p x) zs → ys ≡ zs }
{}
