//! The trees of all switches.
ghost use Rattle.std.specs.Prelude.{◌≡◌, ◌<◌, ◌≤◌, length, IfOk};
ghost use Rattle.pq_join.specs.Switch.{FitsAsSwitch};
ghost use Rattle.pq_rewrite.specs.Calls.{IsIdleFreeAt};
ghost use Rattle.pq_store.specs.Store.{Keeps};
ghost use Rattle.pq_emit.specs.Network.{AllTestPortsOf, AreTreesAt};

use pq_join::switch_trees;
use pq_letters::Letters;
use pq_min::Classes;
use pq_rewrite::{Arrive, Copies, SwitchTrees, WriteSet};
use pq_store::{NodeId, Store};
use pq_topo::Topology;
use std::alloc::AllocError;

/// The trees of all switches, in the topology's order: those of the first table in `first`, those of the second in `second`.
///
/// The policy's diagram is idle-free, and there are at most 4,094 classes, over these letters. There is room for the numbers that
/// the diagrams of the policy and of the letters test, and for the topology's ports. Class c has the tag c + 1. Earlier ids of
/// both stores keep their trees, also after a refusal.
pub fn all_trees(
    topology: &Topology,
    forward: &Store<WriteSet>,
    policy: NodeId,
    letters: &Letters,
    classes: &Classes,
    first: &mut Store<Option<Arrive>>,
    second: &mut Store<Copies>,
) -> Result<Vec<SwitchTrees>, AllocError>
    requires few { length classes.now.rows ≤ 4094 }
    requires letters { classes.now.letters ≡ length letters.now.least }
    requires policy { policy < length forward.now }
    requires idle_free { IsIdleFreeAt forward.now policy }
    requires fits { FitsAsSwitch topology.now forward.now policy letters.now }
    ensures trees { IfOk result (λ all. AreTreesAt topology.now forward.now policy letters.now classes.now first.new second.new all.items) }
    ensures ports { IfOk result (λ all. AllTestPortsOf forward.now policy letters.now first.new second.new all.items) }
    ensures first { Keeps first.old first.new }
    ensures second { Keeps second.old second.new }
{
    let switches = topology.switches();
    let mut all = Vec::with_capacity(first.allocator(), switches.len())?;
    for switch in switches {
        let trees = switch_trees(
            topology,
            switch.datapath,
            forward,
            policy,
            letters,
            classes,
            first,
            second,
        )?;
        all.push(trees)?;
    }
    Ok(all)
}
