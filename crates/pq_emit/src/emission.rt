//! The install of a network.
ghost use Rattle.std.specs.Prelude.{◌≡◌, ◌<◌, ◌≤◌, ℕ, List, Some, length, slice_get, bytes_eq, IfErr, IfOk, OnOk};
ghost use Rattle.std.specs.List.{IsDistinct};
ghost use Rattle.pq_fields.specs.Writes.{Written};
ghost use Rattle.pq_join.specs.Sound.{IgnoresLacking};
ghost use Rattle.pq_join.specs.Switch.{FitsAsSwitch, TestPortsAt};
ghost use Rattle.pq_store.specs.Tree.{Tree};
ghost use Rattle.pq_layout.specs.Emission.{IsEmission};
ghost use Rattle.pq_layout.specs.Sound.{TestsPorts};
ghost use Rattle.pq_model.specs.Install.{IsLawfulInstall};
ghost use Rattle.pq_rewrite.specs.Calls.{IsIdleFreeAt};
ghost use Rattle.pq_emit.specs.Faults.{HasNoFault, IsEmitFault};
ghost use Rattle.pq_emit.specs.Held.{AreHeldBelow, AreInstances};
ghost use Rattle.pq_emit.specs.Network.{IfPolicy};
ghost use Rattle.pq_emit.specs.Switches.{IsFilled};

use crate::assembly::assembled;
use crate::trees::all_trees;
use pq_install::Install;
use pq_join::{tests_stand_below_prerequisites, trees_are_sound, trees_test_ports};
use pq_letters::Letters;
use pq_min::Classes;
use pq_model::Instance;
use pq_rewrite::WriteSet;
use pq_rules::RulesFault;
use pq_store::{NodeId, Store};
use pq_term::Name;
use pq_topo::Topology;

/// The install of a network, for the diagram of its policy and the classes of its queries.
///
/// The policy's diagram is idle-free, and there are at most 4,094 classes, over these letters. There is room for the numbers
/// that the diagrams of the policy and of the letters test, and for the topology's ports. Neither depends on the number in a
/// field that a packet lacks, and the ports that they test are numbers of ports, a letter's port 0 excepted. There are at most
/// 256 names, which differ, and at most 1,024 instances, which ascend. An instance is of a query with a name, and the numbers
/// that a class accepts ascend and are those of instances. A table with more entries than its switch's limit is refused, and
/// then an entry with more than 256 copies, the first one in the topology's order.
pub fn emit(
    topology: &Topology,
    names: &[Name],
    forward: &Store<WriteSet>,
    policy: NodeId,
    letters: &Letters,
    classes: &Classes,
    instances: &[Instance],
) -> Result<Install, RulesFault>
    requires names { length names.now ≤ 256 }
    requires names_differ { IsDistinct bytes_eq names.now }
    requires classes { length classes.now.rows ≤ 4094 }
    requires letters { classes.now.letters ≡ length letters.now.least }
    requires instances { AreInstances (length names.now) instances.now }
    requires held { AreHeldBelow (length instances.now) classes.now }
    requires policy { policy < length forward.now }
    requires idle_free { IsIdleFreeAt forward.now policy }
    requires fits { FitsAsSwitch topology.now forward.now policy letters.now }
    requires policy_ignores { (p : Tree (List Written)) → slice_get forward.now policy ≡ Some p → IgnoresLacking p }
    requires letters_ignore { (t : Tree ℕ) → slice_get letters.now.trees letters.now.root ≡ Some t → IgnoresLacking t }
    requires policy_ports { (p : Tree (List Written)) → slice_get forward.now policy ≡ Some p → TestsPorts p }
    requires letter_ports { TestPortsAt letters.now.trees letters.now.root }
    ensures ok { IfOk result (λ i. IfPolicy topology.now forward.now policy letters.now classes.now
        (λ g writes. IsEmission topology.now names.now writes g instances.now i)) }
    ensures filled { IfOk result (λ i. IfPolicy topology.now forward.now policy letters.now classes.now (λ g writes. IsFilled topology.now g writes i)) }
    ensures lawful { IfOk result IsLawfulInstall }
    ensures complete { OnOk result (IfPolicy topology.now forward.now policy letters.now classes.now (HasNoFault topology.now)) }
    ensures cause { IfErr result (λ fault. IfPolicy topology.now forward.now policy letters.now classes.now
        (λ g writes. IsEmitFault topology.now g writes fault)) }
{
    topology.switches();
    letters.count();
    classes.is_lawful();
    trees_are_sound();
    tests_stand_below_prerequisites();
    trees_test_ports();
    forward.has_diagrams();
    let alloc = forward.allocator();
    let mut first = Store::new(alloc);
    let mut second = Store::new(alloc);
    let made = all_trees(
        topology,
        forward,
        policy,
        letters,
        classes,
        &mut first,
        &mut second,
    );
    let trees = match made {
        Ok(trees) => trees,
        Err(_) => return Err(RulesFault::Memory),
    };
    match assembled(topology, names, classes, instances, &first, &second, &trees) {
        Ok(install) => Ok(install),
        Err(fault) => Err(fault),
    }
}
