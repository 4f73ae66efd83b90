//! The classes of words that instances of queries tell apart.
ghost use Rattle.std.specs.Prelude.{◌≡◌, ◌<◌, ◌≤◌, ◌^◌, All, IfErr, IfOk, OnOk, length};
ghost use Rattle.pq_query.specs.Instances.{IsCause, instances_of, label_sum, named_trees};
ghost use Rattle.pq_query.specs.Languages.{IsHeld};
ghost use Rattle.pq_query.specs.Lawful.{IsLawfulQuery};
ghost use Rattle.pq_query.specs.Atoms.{query_atoms};
ghost use Rattle.pq_store.specs.Store.{Keeps};
ghost use Rattle.pq_classes.specs.Letters.{IgnoresLacking, TestsQueries};
ghost use Rattle.pq_classes.specs.Room.{FitAsQueries};
ghost use Rattle.pq_classes.specs.Told.{AreClasses};

use crate::letters::{classes_of, letters_of};
use crate::lowering::lowered;
use pq_io::Steps;
use pq_letters::Letters;
use pq_min::Classes;
use pq_query::{Instance, InstancesFault, Query, instances};
use pq_store::Store;
use pq_term::Name;
use pq_topo::Topology;
use std::alloc::{AllocError, Global};
use std::sync::ledger::Ledger;

/// What queries tell of the words of packets.
#[derive(Drop)]
pub struct QueryClasses {
    /// The instances of the queries, by query and then by label.
    pub instances: Vec<Instance>,
    /// Letters of packets: two packets have the same letter where the same predicates of the queries hold of them.
    pub letters: Letters,
    /// The classes of words over these letters. Class c has the tag c + 1.
    pub classes: Classes,
}

/// The letters of packets that these instances of queries tell apart, and the classes of words over them.
fn told<L: Ledger>(
    alloc: Global,
    queries: &[(Name, Query)],
    topology: &Topology,
    all: &[Instance],
    tests: &mut Store<bool>,
    steps: &mut Steps<L>,
) -> Result<(Letters, Classes), AllocError>
    requires instances { all.now ≡ instances_of topology.now (named_trees queries.now) }
    requires few { length all.now ≤ 1024 }
    requires within { All (λ i. i.query < length queries.now) all.now }
    requires lawful { All IsLawfulQuery (named_trees queries.now) }
    requires atoms { All (λ q. query_atoms q < 2 ^ 19) (named_trees queries.now) }
    requires fits { FitAsQueries topology.now (named_trees queries.now) }
    ensures classes { IfOk result (λ r. AreClasses (IsHeld (named_trees queries.now) all.now) r.0 r.1) }
    ensures tests { IfOk result (λ r. TestsQueries topology.now (named_trees queries.now) r.0) }
    ensures ignores { IfOk result (λ r. IgnoresLacking r.0) }
    ensures keeps { Keeps tests.old tests.new }
{
    let _named = topology.switches();
    let lowered = lowered(alloc, queries, all)?;
    let letters = letters_of(alloc, tests, &lowered.preds)?;
    let classes = classes_of(alloc, &lowered.exprs, &letters, steps)?;
    letters.count();
    Ok((letters, classes))
}

/// The instances of at most 256 queries over a topology, the letters of packets that they tell apart, and the classes of words
/// over these letters: following a word by the letters of its packets leads to the class that says its parity, which
/// instances hold it, and its tag.
///
/// Each query has fewer than 2^19 atoms, and there is room for the numbers of all of them. It fails where there are more than
/// 1,024 instances, or not enough memory. Each step of a state is counted, and earlier ids of the store keep their diagrams.
pub fn query_classes<L: Ledger>(
    alloc: Global,
    queries: &[(Name, Query)],
    topology: &Topology,
    tests: &mut Store<bool>,
    steps: &mut Steps<L>,
) -> Result<QueryClasses, InstancesFault>
    requires few { length queries.now ≤ 256 }
    requires lawful { All IsLawfulQuery (named_trees queries.now) }
    requires atoms { All (λ q. query_atoms q < 2 ^ 19) (named_trees queries.now) }
    requires fits { FitAsQueries topology.now (named_trees queries.now) }
    ensures instances { IfOk result (λ c. c.instances.items ≡ instances_of topology.now (named_trees queries.now)) }
    ensures few { IfOk result (λ c. length c.instances.items ≤ 1024) }
    ensures within { IfOk result (λ c. All (λ i. i.query < length queries.now) c.instances.items) }
    ensures sum { OnOk result (label_sum topology.now (named_trees queries.now) ≤ 1024) }
    ensures classes { IfOk result (λ c. AreClasses (IsHeld (named_trees queries.now) c.instances.items) c.letters c.classes) }
    ensures tests { IfOk result (λ c. TestsQueries topology.now (named_trees queries.now) c.letters) }
    ensures ignores { IfOk result (λ c. IgnoresLacking c.letters) }
    ensures cause { IfErr result (λ fault. IsCause fault (label_sum topology.now (named_trees queries.now))) }
    ensures keeps { Keeps tests.old tests.new }
{
    let instances = instances(alloc, queries, topology)?;
    match told(alloc, queries, topology, &instances, tests, steps) {
        Ok((letters, classes)) => Ok(QueryClasses {
            instances,
            letters,
            classes,
        }),
        Err(_) => Err(InstancesFault::Memory),
    }
}
