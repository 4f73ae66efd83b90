//! The trees of a switch's tables.
ghost use Rattle.std.specs.Prelude.{◌≡◌, ◌<◌, ◌≤◌, List, Some, length, slice_get, IfOk};
ghost use Rattle.std.specs.List.{Any};
ghost use Rattle.pq_fields.specs.declared.field.Field.TheVariants.{Port};
ghost use Rattle.pq_layout.specs.Trees.{AreArriving};
ghost use Rattle.pq_rewrite.specs.Calls.{IsIdleFreeAt};
ghost use Rattle.pq_store.specs.Store.{HasAt, Keeps};
ghost use Rattle.pq_store.specs.Tree.{Tree, value};
ghost use Rattle.pq_apply.specs.Product.{FitTogetherAt};
ghost use Rattle.pq_join.specs.Fronts.{StartsAt};
ghost use Rattle.pq_join.specs.Drops.{DepartsOrDropsAt, DropsAt, or_drop};
ghost use Rattle.pq_join.specs.Departing.{DepartsFromAt};
ghost use Rattle.pq_join.specs.Switch.{AllTestPorts, AreLeavingBy, FitsAsSwitch};
ghost use Rattle.pq_join.specs.Tags.{tagging_of};

use crate::arriving::arriving_trees;
use crate::choices::at_number;
use crate::departure::Departures;
use crate::departures::{departures, only};
use crate::leaving::leaving_trees;
use crate::sight::{Seen, sight};
use indexmap::IndexMap;
use pq_apply::product;
use pq_fields::{Field, Writes};
use pq_letters::Letters;
use pq_min::Classes;
use pq_rewrite::{Arrive, Copies, SwitchTrees, WriteSet};
use pq_store::{NodeId, Store};
use pq_topo::Topology;
use std::alloc::{AllocError, Global};

/// The trees of a switch's two tables, for the departures of a policy and for classes of words over letters of packets.
///
/// The switch is one of the topology, the policy's diagram is idle-free, and there are at most 4,094 classes, over these
/// letters. There is room for the numbers that the diagrams of the policy and of the letters test, and for the topology's ports.
/// Class c has the tag c + 1. Earlier ids of both stores keep their trees, also after a refusal.
pub fn switch_trees(
    topology: &Topology,
    datapath: u64,
    forward: &Store<WriteSet>,
    policy: NodeId,
    letters: &Letters,
    classes: &Classes,
    first: &mut Store<Option<Arrive>>,
    second: &mut Store<Copies>,
) -> Result<SwitchTrees, AllocError>
    requires switch { Any (λ s. s.datapath ≡ datapath) topology.now.switches }
    requires few { length classes.now.rows ≤ 4094 }
    requires letters { classes.now.letters ≡ length letters.now.least }
    requires policy { policy < length forward.now }
    requires idle_free { IsIdleFreeAt forward.now policy }
    requires fits { FitsAsSwitch topology.now forward.now policy letters.now }
    ensures arriving { IfOk result (λ trees. AreArriving topology.now (tagging_of letters.now classes.now) datapath first.new trees.arriving.items) }
    ensures leaving { IfOk result (λ trees. AreLeavingBy topology.now letters.now classes.now datapath forward.now policy second.new trees.leaving.items) }
    ensures ports { IfOk result (λ trees. AllTestPorts forward.now policy letters.now first.new trees.arriving.items second.new trees.leaving.items) }
    ensures first { Keeps first.old first.new }
    ensures second { Keeps second.old second.new }
{
    // What is lawful of the topology: its links join ports, and these have numbers of ports.
    let (_named, _ports) = (topology.switches(), topology.ports_of(datapath));
    let alloc = first.allocator();
    let (mut seen, root) = sight(alloc, topology, datapath, letters)?;
    let arriving = arriving_trees(classes, letters.count(), &seen, root, first)?;
    let here = at_number(forward, policy, Field::Switch, datapath);
    let (departures, node) = departures_or_drops(alloc, &mut seen, root, forward, here)?;
    let leaving = leaving_trees(classes, letters.count(), &departures, node, second)?;
    Ok(SwitchTrees { arriving, leaving })
}

/// The diagram of the departures of packets, with a drop of those that have none.
fn departures_or_drops(
    alloc: Global,
    seen: &mut Store<Seen>,
    root: NodeId,
    forward: &Store<WriteSet>,
    node: NodeId,
) -> Result<(Store<Departures>, NodeId), AllocError>
    requires root { root < length seen.old }
    requires first { StartsAt Port seen.old root }
    requires node { node < length forward.now }
    requires fit { FitTogetherAt seen.old root forward.now node }
    ensures { IfOk result (λ r. DepartsOrDropsAt seen.old root forward.now node r.0 r.1) }
{
    let mut made = Store::new(alloc);
    let mut tests = Store::new(alloc);
    let mut ones = IndexMap::new(alloc);
    let mut done = IndexMap::new(alloc);
    let id = departures(
        seen, root, forward, node, &mut made, &mut tests, &mut ones, &mut done,
    )?;
    let dropped = at_number(seen, root, Field::Port, 0);
    let (whole, place) = with_drops(alloc, &made, id, seen, dropped)?;
    Ok((whole, place))
}

/// The diagram of departures, with a drop of the packets that have none: what is seen of it is told by another diagram.
fn with_drops(
    alloc: Global,
    departures: &Store<Departures>,
    node: NodeId,
    seen: &Store<Seen>,
    dropped: NodeId,
) -> Result<(Store<Departures>, NodeId), AllocError>
    requires node { node < length departures.now }
    requires dropped { dropped < length seen.now }
    requires fit { FitTogetherAt departures.now node seen.now dropped }
    ensures { IfOk result (λ r. DropsAt departures.now node seen.now dropped r.0 r.1) }
{
    let mut into = Store::new(alloc);
    let join = |list: &Departures, own: &Seen| -> Result<Departures, AllocError>
        ensures { IfOk result (λ c. c ≡ or_drop list.now own.now) }
    { departures_or_drop(alloc, list, own) };
    let id = product(departures, node, seen, dropped, &mut into, &join)?;
    Ok((into, id))
}

/// The departures, or a drop where there are none.
fn departures_or_drop(
    alloc: Global,
    departures: &Departures,
    dropped: &Seen,
) -> Result<Departures, AllocError>
    ensures { IfOk result (λ c. c ≡ or_drop departures.now dropped.now) }
{
    if departures.list.is_empty() {
        return only(alloc, &Writes::none(), dropped);
    }
    let list = Vec::from_slice(alloc, &departures.list)?;
    Ok(Departures { list })
}
