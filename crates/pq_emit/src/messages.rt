//! The messages of all switches.
ghost use Rattle.std.specs.Prelude.{◌≡◌, length, map, All, IfErr, IfOk, OnOk};
ghost use Rattle.std.specs.List.{AllZip};
ghost use Rattle.std.specs.declared.option.Option.TheVariants.{None};
ghost use Rattle.pq_model.specs.Install.{IsLawfulList};
ghost use Rattle.pq_emit.specs.Faults.{IsFaultOf, fault_of};
ghost use Rattle.pq_emit.specs.Switches.{IsFilledBy, IsSoundAt, trees_of};

use pq_model::Message;
use pq_rewrite::{Arrive, Copies, SwitchTrees};
use pq_rules::{RulesFault, rules};
use pq_store::Store;
use pq_topo::Topology;

/// The messages of each switch, in the topology's order. A table that is too large is told before an entry with too many
/// copies, whatever their switches.
///
/// There are trees of each switch, and all of them are such that entries can stand for them.
pub(crate) fn all_messages(
    topology: &Topology,
    first: &Store<Option<Arrive>>,
    second: &Store<Copies>,
    trees: &[SwitchTrees],
) -> Result<Vec<Vec<Message>>, RulesFault>
    requires listed { length trees.now ≡ length topology.now.switches }
    requires sound { All (IsSoundAt first.now second.now) trees.now }
    ensures messages { IfOk result (λ all. AllZip IsFilledBy (trees_of first.now second.now trees.now) (map (λ ms. ms.items) all.items)) }
    ensures lawful { IfOk result (λ all. All IsLawfulList (map (λ ms. ms.items) all.items)) }
    ensures complete { OnOk result (fault_of topology.now.switches (trees_of first.now second.now trees.now) ≡ None) }
    ensures cause { IfErr result (IsFaultOf topology.now.switches (trees_of first.now second.now trees.now)) }
{
    let switches = topology.switches();
    let mut all = Vec::new(first.allocator());
    let mut full = None;
    for index in 0..trees.len() {
        let switch = &switches[index];
        match rules(switch.datapath, switch.limit, first, second, &trees[index]) {
            Ok(messages) => match all.push(messages) {
                Ok(()) => {}
                Err(_) => return Err(RulesFault::Memory),
            },
            Err(RulesFault::GroupFull { switch, copies }) => {
                if full.is_none() {
                    full = Some((switch, copies));
                }
            }
            Err(
                RulesFault::TableFull {
                    switch,
                    table,
                    entries,
                },
            ) => {
                return Err(RulesFault::TableFull {
                    switch,
                    table,
                    entries,
                });
            }
            Err(RulesFault::Memory) => return Err(RulesFault::Memory),
        }
    }
    match full {
        Some((switch, copies)) => Err(RulesFault::GroupFull { switch, copies }),
        None => Ok(all),
    }
}
