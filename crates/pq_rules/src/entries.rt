//! The matches and leaves of trees, yes side first.
ghost use Rattle.std.specs.Prelude.{◌≡◌, ◌<◌, All, Some, length, slice_get, IfOk, OnOk};
ghost use Rattle.pq_store.specs.Tree.{Tree};
ghost use Rattle.pq_layout.specs.Entries.{matches_below, vlan_match};
ghost use Rattle.pq_layout.specs.Sound.{IsMatchable};
ghost use Rattle.pq_rules.specs.Found.{AreFound, Finds, FirstTells, IsKeyWord, IsRoot, matches_of, trees_with};
ghost use Rattle.pq_rules.specs.Paths.{StaysLawful};

use crate::matching::{failing, passing};
use pq_model::Match;
use pq_store::{Leaf, NodeId, Store, View};
use std::alloc::AllocError;

/// The matches and the ids of the leaves of a tree for packets with this VLAN_VID word, yes side first.
///
/// The word is 0 or that of a tag. The tree has no test of the switch, its tests are below their prerequisites, and the port
/// numbers that it tests are 1 to 4,294,967,040. The first match that covers a packet with the word gives the leaf that the
/// packet reaches.
pub fn entry_matches<L: Leaf>(
    store: &Store<L>,
    node: NodeId,
    vlan: u16,
) -> Result<Vec<(Match, NodeId)>, AllocError>
    requires node { node < length store.now }
    requires vlan { IsKeyWord vlan }
    requires matchable { (t : Tree L) → slice_get store.now node ≡ Some t → IsMatchable t }
    ensures matches { IfOk result (λ found. (t : Tree L) → slice_get store.now node ≡ Some t
        → AreFound store.now (matches_below (vlan_match vlan) t) found.items) }
    ensures first { IfOk result (λ found. (t : Tree L) → slice_get store.now node ≡ Some t → FirstTells store.now t vlan found.items) }
{
    let mut found = Vec::new(store.allocator());
    push_tree(store, node, vlan, &mut found)?;
    Ok(found)
}

/// The matches and the leaves of these trees, each with its VLAN_VID word, tree after tree; room is made for this number.
pub(crate) fn table_entries<L: Leaf>(
    store: &Store<L>,
    roots: &[(u16, NodeId)],
    room: u64,
) -> Result<Vec<(Match, NodeId)>, AllocError>
    requires { All (IsRoot store.now) roots.now }
    ensures { IfOk result (λ found. AreFound store.now (matches_of (trees_with store.now roots.now)) found.items) }
{
    let mut found = Vec::with_capacity(store.allocator(), room as usize)?;
    for root in roots {
        push_tree(store, root.1, root.0, &mut found)?;
    }
    Ok(found)
}

/// Appends the matches and the leaves of a tree.
fn push_tree<L: Leaf>(
    store: &Store<L>,
    node: NodeId,
    vlan: u16,
    found: &mut Vec<(Match, NodeId)>,
) -> Result<(), AllocError>
    requires node { node < length store.now }
    requires vlan { IsKeyWord vlan }
    requires matchable { (t : Tree L) → slice_get store.now node ≡ Some t → IsMatchable t }
    ensures { OnOk result ((t : Tree L) → slice_get store.now node ≡ Some t
        → Finds store.now (matches_below (vlan_match vlan) t) found.old.items found.new.items) }
{
    let matching = vlan_match(vlan);
    push_below(store, node, &matching, found)
}

/// The match of the packets with this VLAN_VID word.
fn vlan_match(vlan: u16) -> Match
    requires { IsKeyWord vlan }
    ensures { result ≡ vlan_match vlan }
{
    Match {
        vlan: Some(vlan),
        ..Match::any()
    }
}

/// Appends the matches and the leaves of a tree below a match. It recurs on yes sides alone, of which a path has few.
fn push_below<L: Leaf>(
    store: &Store<L>,
    node: NodeId,
    matching: &Match,
    found: &mut Vec<(Match, NodeId)>,
) -> Result<(), AllocError>
    requires node { node < length store.now }
    requires stays { (t : Tree L) → slice_get store.now node ≡ Some t → StaysLawful matching.now t }
    ensures { OnOk result ((t : Tree L) → slice_get store.now node ≡ Some t → Finds store.now (matches_below matching.now t) found.old.items found.new.items) }
{
    let mut at = node;
    let mut below = *matching;
    loop {
        match store.view(at) {
            View::Leaf(_) => {
                found.push((below, at))?;
                return Ok(());
            }
            View::Node(test, yes, no) => {
                let passed = passing(test, &below);
                push_below(store, yes, &passed, found)?;
                below = failing(test, &below);
                at = no;
            }
        }
    }
}
