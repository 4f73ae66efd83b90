//! The messages of a switch.
ghost use Rattle.std.specs.Prelude.{◌≡◌, ◌≤◌, ◌<◌, ◌^◌, [], All, None, length, IfErr, IfOk, OnOk};
ghost use Rattle.pq_model.specs.Lawful.{IsLawfulMessage};
ghost use Rattle.pq_layout.specs.Messages.{messages_of};
ghost use Rattle.pq_layout.specs.Sound.{AreSoundArriving, AreSoundLeaving};
ghost use Rattle.pq_lookup.specs.Sent.{AreFilled, TreesRenew};
ghost use Rattle.pq_rules.specs.Counts.{AreWithin};
ghost use Rattle.pq_rules.specs.Found.{AreFound, IsRoot, matches_of, trees_with};
ghost use Rattle.pq_rules.specs.Grouping.{IsLeafAt, resolved};
ghost use Rattle.pq_rules.specs.Refusals.{FitRules, IsFull, IsMany, IsRulesFault, many_copies};
ghost use Rattle.pq_rules.specs.Renewing.{IsArrivingLeaf, IsLeavingLeaf, few, messages_for};
ghost use Rattle.pq_rules.specs.Tables.{AreArrivingWithin, arriving_trees, leaving_trees};

use crate::counting::count_entries;
use crate::entries::table_entries;
use crate::fault::RulesFault;
use crate::grouping::{grouped, leaf_copies};
use crate::renewal::renewal;
use crate::roots::{arriving_roots, leaving_roots};
use pq_model::{Match, Message};
use pq_rewrite::{Arrive, Copies, SwitchTrees};
use pq_store::{Leaf, NodeId, Store};
use std::alloc::AllocError;

/// The most copies of an entry.
const MOST_COPIES: usize = 256;

/// The messages that fill the two tables of a switch from their trees: all is deleted, then groups are added, then entries,
/// with transaction ids from 1 on.
///
/// The limit is at most 16,384. The ids are those of the stores, and their trees are such as entries can stand for: the
/// VLAN_VID words of a table's trees differ, no test is of the switch, tests are below their prerequisites, tags are 1 to
/// 4094, ports are 1 to 4,294,967,040, and no write is idle. A table with more entries than the limit is refused, the first one
/// first; then the first entry with more than 256 copies.
pub fn rules(
    datapath: u64,
    limit: u32,
    first: &Store<Option<Arrive>>,
    second: &Store<Copies>,
    trees: &SwitchTrees,
) -> Result<Vec<Message>, RulesFault>
    requires limit { limit ≤ 16384 }
    requires arriving_ids { AreArrivingWithin first.now trees.now.arriving.items }
    requires leaving_ids { AreWithin second.now trees.now.leaving.items }
    requires arriving { AreSoundArriving (arriving_trees first.now trees.now.arriving.items) }
    requires leaving { AreSoundLeaving (leaving_trees second.now trees.now.leaving.items) }
    ensures ok { IfOk result (λ ms. ms.items ≡ messages_of (arriving_trees first.now trees.now.arriving.items)
        (leaving_trees second.now trees.now.leaving.items)) }
    ensures lawful { IfOk result (λ ms. All IsLawfulMessage ms.items) }
    ensures few { IfOk result (λ ms. length ms.items < 2 ^ 32) }
    ensures fits { OnOk result (FitRules limit (arriving_trees first.now trees.now.arriving.items) (leaving_trees second.now trees.now.leaving.items)) }
    ensures filled { OnOk result (AreFilled (arriving_trees first.now trees.now.arriving.items) (leaving_trees second.now trees.now.leaving.items)) }
    ensures renewing { OnOk result (TreesRenew (arriving_trees first.now trees.now.arriving.items) (leaving_trees second.now trees.now.leaving.items)) }
    ensures cause { IfErr result (IsRulesFault datapath limit (arriving_trees first.now trees.now.arriving.items)
        (leaving_trees second.now trees.now.leaving.items)) }
{
    let arriving = arriving_roots(first, &trees.arriving)?;
    let first_entries = limited_entries(datapath, 0, limit, first, &arriving)?;
    let leaving = leaving_roots(second, &trees.leaving)?;
    let second_entries = limited_entries(datapath, 1, limit, second, &leaving)?;
    few_copies(datapath, second, &second_entries)?;
    let messages = messages(first, &first_entries, second, &second_entries)?;
    Ok(messages)
}

/// The matches and the leaves of a table's trees, unless they are more than the limit. They are counted before they are listed.
fn limited_entries<L: Leaf>(
    datapath: u64,
    table: u8,
    limit: u32,
    store: &Store<L>,
    roots: &[(u16, NodeId)],
) -> Result<Vec<(Match, NodeId)>, RulesFault>
    requires limit { limit ≤ 16384 }
    requires roots { All (IsRoot store.now) roots.now }
    ensures found { IfOk result (λ es. AreFound store.now (matches_of (trees_with store.now roots.now)) es.items) }
    ensures few { OnOk result (length (matches_of (trees_with store.now roots.now)) ≤ limit) }
    ensures full { IfErr result (IsFull datapath table limit (length (matches_of (trees_with store.now roots.now)))) }
{
    let entries = count_entries(store, roots)?;
    if entries > u64::from(limit) {
        return Err(RulesFault::TableFull {
            switch: datapath,
            table,
            entries,
        });
    }
    let found = table_entries(store, roots, entries)?;
    Ok(found)
}

/// Refuses the first entry with more than 256 copies.
fn few_copies(
    datapath: u64,
    store: &Store<Copies>,
    entries: &[(Match, NodeId)],
) -> Result<(), RulesFault>
    requires { All (λ e. IsLeafAt store.now e.1) entries.now }
    ensures ok { OnOk result (many_copies (resolved [] store.now entries.now) ≡ None) }
    ensures many { IfErr result (IsMany datapath (resolved [] store.now entries.now)) }
{
    for entry in entries {
        let copies = leaf_copies(store, entry.1).len();
        if copies > MOST_COPIES {
            return Err(RulesFault::GroupFull {
                switch: datapath,
                copies: copies as u64,
            });
        }
    }
    Ok(())
}

/// The messages of these entries of both tables.
fn messages(
    first: &Store<Option<Arrive>>,
    first_entries: &[(Match, NodeId)],
    second: &Store<Copies>,
    second_entries: &[(Match, NodeId)],
) -> Result<Vec<Message>, AllocError>
    requires first_few { length first_entries.now ≤ few }
    requires second_few { length second_entries.now ≤ few }
    requires first_leaves { All (λ e. IsArrivingLeaf first.now e.1) first_entries.now }
    requires second_leaves { All (λ e. IsLeavingLeaf second.now e.1) second_entries.now }
    ensures { IfOk result (λ ms. ms.items ≡ messages_for (resolved None first.now first_entries.now) (resolved [] second.now second_entries.now)) }
{
    let grouping = grouped(second, second_entries)?;
    let messages = renewal(first, first_entries, second, second_entries, &grouping)?;
    Ok(messages)
}
