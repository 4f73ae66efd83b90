//! The trees that give entries, with their VLAN_VID words.
ghost use Rattle.std.specs.Prelude.{◌≡◌, ◌<◌, ◌++◌, ◌∷◌, [], All, length, if◌then◌else◌, IfOk, OnOk};
ghost use Rattle.pq_layout.specs.Actions.{key_word};
ghost use Rattle.pq_layout.specs.Entries.{table_of};
ghost use Rattle.pq_layout.specs.Messages.{is_nothing, is_without};
ghost use Rattle.pq_rules.specs.Found.{IsKeyWord, IsRoot, matches_of, trees_with};
ghost use Rattle.pq_rules.specs.Tables.{IsArrivingId, IsBlankAt, IsLeavingId, arriving_trees, leaving_trees};

use crate::actions::TAGGED;
use pq_rewrite::{Arrive, Copies, Key};
use pq_store::{NodeId, Store, View};
use std::alloc::AllocError;

/// The VLAN_VID word of a key: 0 for packets without a header.
fn key_word(key: Key) -> u16
    requires { IsKeyWord (key_word key) }
    ensures { result ≡ key_word key }
{
    match key {
        Key::Plain => 0,
        Key::Tag(tag) => TAGGED + tag,
    }
}

/// The trees of the first table that are not one leaf `None`.
pub(crate) fn arriving_roots(
    store: &Store<Option<Arrive>>,
    ids: &[(Key, NodeId)],
) -> Result<Vec<(u16, NodeId)>, AllocError>
    requires { All (IsArrivingId store.now) ids.now }
    ensures roots { IfOk result (λ roots. All (IsRoot store.now) roots.items) }
    ensures entries { IfOk result (λ roots. matches_of (trees_with store.now roots.items) ≡ table_of is_nothing (arriving_trees store.now ids.now)) }
{
    let mut roots = Vec::new(store.allocator());
    for id in ids {
        let blank = is_nothing(store, id.1);
        push_root(&mut roots, key_word(id.0), id.1, blank)?;
    }
    Ok(roots)
}

/// Whether the tree is one leaf `None`.
fn is_nothing(store: &Store<Option<Arrive>>, node: NodeId) -> bool
    requires { node < length store.now }
    ensures { IsBlankAt is_nothing store.now node result }
{
    match store.view(node) {
        View::Leaf(leaf) => leaf.is_none(),
        View::Node(_, _, _) => false,
    }
}

/// The trees of the second table that are not one leaf without copies.
pub(crate) fn leaving_roots(
    store: &Store<Copies>,
    ids: &[(u16, NodeId)],
) -> Result<Vec<(u16, NodeId)>, AllocError>
    requires { All (IsLeavingId store.now) ids.now }
    ensures roots { IfOk result (λ roots. All (IsRoot store.now) roots.items) }
    ensures entries { IfOk result (λ roots. matches_of (trees_with store.now roots.items) ≡ table_of is_without (leaving_trees store.now ids.now)) }
{
    let mut roots = Vec::new(store.allocator());
    for id in ids {
        let blank = is_without(store, id.1);
        push_root(&mut roots, TAGGED + id.0, id.1, blank)?;
    }
    Ok(roots)
}

/// Whether the tree is one leaf without copies.
fn is_without(store: &Store<Copies>, node: NodeId) -> bool
    requires { node < length store.now }
    ensures { IsBlankAt is_without store.now node result }
{
    match store.view(node) {
        View::Leaf(leaf) => leaf.list().is_empty(),
        View::Node(_, _, _) => false,
    }
}

/// Appends a tree that isn't blank.
fn push_root(
    roots: &mut Vec<(u16, NodeId)>,
    vlan: u16,
    node: NodeId,
    blank: bool,
) -> Result<(), AllocError>
    ensures { OnOk result (roots.new.items ≡ (if blank then roots.old.items else roots.old.items ++ (vlan, node) ∷ [])) }
{
    if blank {
        return Ok(());
    }
    roots.push((vlan, node))?;
    Ok(())
}
