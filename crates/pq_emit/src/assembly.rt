//! The install of the trees of a network.
ghost use Rattle.std.specs.Prelude.{◌≡◌, ◌≤◌, All, length, map, bytes_eq, IfErr, IfOk, OnOk};
ghost use Rattle.std.specs.List.{IsDistinct};
ghost use Rattle.pq_join.specs.Tags.{tagging_of};
ghost use Rattle.pq_layout.specs.Emission.{IsEmission, report_of};
ghost use Rattle.pq_letters.specs.Letters.{LettersValue};
ghost use Rattle.pq_model.specs.Install.{IsLawfulInstall, IsLawfulList};
ghost use Rattle.pq_emit.specs.Faults.{HasNoFault, IsEmitFault};
ghost use Rattle.pq_emit.specs.Held.{AreHeldBelow, AreInstances};
ghost use Rattle.pq_emit.specs.Network.{IfTreesAt};
ghost use Rattle.pq_emit.specs.Switches.{IsFilled, IsSoundAt};

use crate::messages::all_messages;
use crate::names::are_names;
use crate::report::report;
use pq_install::Install;
use pq_min::Classes;
use pq_model::{Instance, Message};
use pq_rewrite::{Arrive, Copies, SwitchTrees};
use pq_rules::RulesFault;
use pq_store::Store;
use pq_term::Name;
use pq_topo::Topology;
use std::alloc::{AllocError, Global};

/// The install whose tables are made from these trees of all switches, and whose report is that of these classes.
///
/// There are trees of each switch, and all of them are such that entries can stand for them. There are at most 256 names, which
/// differ, at most 1,024 instances, which ascend, and at most 4,094 classes. An instance is of a query with a name, and the
/// numbers that classes accept are those of instances. A table with more entries than its switch's limit is refused, and then
/// an entry with more than 256 copies, the first one in the topology's order.
pub fn assembled(
    topology: &Topology,
    names: &[Name],
    classes: &Classes,
    instances: &[Instance],
    first: &Store<Option<Arrive>>,
    second: &Store<Copies>,
    trees: &[SwitchTrees],
) -> Result<Install, RulesFault>
    requires names { length names.now ≤ 256 }
    requires names_differ { IsDistinct bytes_eq names.now }
    requires classes { length classes.now.rows ≤ 4094 }
    requires instances { AreInstances (length names.now) instances.now }
    requires held { AreHeldBelow (length instances.now) classes.now }
    requires listed { length trees.now ≡ length topology.now.switches }
    requires sound { All (IsSoundAt first.now second.now) trees.now }
    ensures ok { IfOk result (λ i. IfTreesAt topology.now classes.now first.now second.now trees.now
        (λ g writes. IsEmission topology.now names.now writes g instances.now i)) }
    ensures filled { IfOk result (λ i. IfTreesAt topology.now classes.now first.now second.now trees.now (λ g writes. IsFilled topology.now g writes i)) }
    ensures lawful { IfOk result IsLawfulInstall }
    ensures complete { OnOk result (IfTreesAt topology.now classes.now first.now second.now trees.now (HasNoFault topology.now)) }
    ensures cause { IfErr result (λ fault. IfTreesAt topology.now classes.now first.now second.now trees.now
        (λ g writes. IsEmitFault topology.now g writes fault)) }
{
    let messages = match all_messages(topology, first, second, trees) {
        Ok(messages) => messages,
        Err(fault) => return Err(fault),
    };
    match install_of(
        first.allocator(),
        topology,
        names,
        classes,
        instances,
        messages,
    ) {
        Ok(install) => Ok(install),
        Err(_) => Err(RulesFault::Memory),
    }
}

/// The install with these messages, and with the report of these classes.
fn install_of(
    alloc: Global,
    topology: &Topology,
    names: &[Name],
    classes: &Classes,
    instances: &[Instance],
    messages: Vec<Vec<Message>>,
) -> Result<Install, AllocError>
    requires names { length names.now ≤ 256 }
    requires names_differ { IsDistinct bytes_eq names.now }
    requires classes { length classes.now.rows ≤ 4094 }
    requires instances { AreInstances (length names.now) instances.now }
    requires held { AreHeldBelow (length instances.now) classes.now }
    requires listed { length messages.items ≡ length topology.now.switches }
    requires lawful { All IsLawfulList (map (λ ms. ms.items) messages.items) }
    ensures topology { IfOk result (λ i. i.topology ≡ topology.now) }
    ensures names { IfOk result (λ i. i.queries ≡ names.now) }
    ensures report { IfOk result (λ i. (a : LettersValue) → i.report ≡ report_of (tagging_of a classes.now) instances.now) }
    ensures messages { IfOk result (λ i. i.messages ≡ map (λ ms. ms.items) messages.items) }
    ensures lawful { IfOk result IsLawfulInstall }
{
    let report = report(alloc, classes, instances)?;
    are_names(names);
    let names = Vec::from_slice(alloc, names)?;
    topology.switches();
    let topology = topology.copy(alloc)?;
    Ok(Install {
        topology,
        names,
        report,
        messages,
    })
}
