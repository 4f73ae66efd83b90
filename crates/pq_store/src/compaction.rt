ghost use Rattle.std.specs.Prelude.{◌≡◌, ◌+◌, ◌<◌, ◌++◌, ◌∷◌, [], ℕ, List, All, length, IfOk};
ghost use Rattle.std.specs.List.{AllZip};
ghost use Rattle.pq_store.specs.Compaction.{IsCompaction};
ghost use Rattle.pq_store.specs.Moves.{Marks, MarksSides, Moves, MovesTo};

use crate::leaf::Leaf;
use crate::node_id::NodeId;
use crate::store::Store;
use crate::view::View;
use std::alloc::{AllocError, Global};

impl<L: Leaf + Clone> Store<L> {
    /// A store of what is under these ids, and position by position their ids in it.
    pub fn compacted(&self, roots: &[NodeId]) -> Result<(Store<L>, Vec<NodeId>), AllocError>
        requires roots { All (λ root. root < length self.now) roots.now }
        requires clones { (x y : L) → L.is_clone x y → y ≡ x }
        ensures { IfOk result (λ r. IsCompaction self.now roots.now r.0 r.1.items) }
    {
        let alloc = self.allocator();
        let kept = self.kept(roots)?;
        let mut compact = Store::with_room(alloc, self.count() as usize)?;
        let moved = self.moved(&kept, &mut compact)?;
        let ids = moved_ids(alloc, &moved, roots)?;
        Ok((compact, ids))
    }

    /// Which places are those of what is under these ids.
    fn kept(&self, roots: &[NodeId]) -> Result<Vec<bool>, AllocError>
        requires { All (λ root. root < length self.now) roots.now }
        ensures { IfOk result (λ kept. Marks self.now roots.now 0 kept.items) }
    {
        let mut kept = self.marked(roots)?;
        let mut place = self.count();
        while place > 0 {
            place -= 1;
            self.mark_sides(NodeId(place), &mut kept);
        }
        Ok(kept)
    }

    /// Which places are those of these ids.
    fn marked(&self, roots: &[NodeId]) -> Result<Vec<bool>, AllocError>
        requires { All (λ root. root < length self.now) roots.now }
        ensures { IfOk result (λ kept. Marks self.now roots.now (length self.now) kept.items) }
    {
        let mut kept = vec![in self.allocator(); false; self.count() as usize]?;
        for root in roots {
            kept[root.0 as usize] = true;
        }
        Ok(kept)
    }

    /// Marks the sides of what is at a marked place.
    fn mark_sides(&self, place: NodeId, kept: &mut [bool])
        requires place { place < length self.now }
        requires kept { length kept.old ≡ length self.now }
        ensures { (roots : List ℕ) → Marks self.now roots (place + 1) kept.old → Marks self.now roots place kept.new }
    {
        if !kept[place.0 as usize] {
            return;
        }
        match self.view(place) {
            View::Leaf(_) => {}
            View::Node(_, yes, no) => {
                kept[yes.0 as usize] = true;
                kept[no.0 as usize] = true;
            }
        }
    }

    /// Where the trees at the kept places are in an empty store, which takes them.
    fn moved(
        &self,
        kept: &[bool],
        compact: &mut Store<L>,
    ) -> Result<Vec<Option<NodeId>>, AllocError>
        requires clones { (x y : L) → L.is_clone x y → y ≡ x }
        requires kept { length kept.now ≡ length self.now }
        requires sides { MarksSides self.now 0 kept.now }
        requires empty { compact.old ≡ [] }
        ensures moves { IfOk result (λ moved. Moves self.now kept.now moved.items compact.new) }
        ensures each { IfOk result (λ moved. length moved.items ≡ length kept.now) }
    {
        let mut moved = Vec::with_capacity(self.allocator(), kept.len())?;
        while moved.len() < kept.len() {
            let id = self.moved_next(kept, &moved, compact)?;
            moved.push(id)?;
        }
        Ok(moved)
    }

    /// Where the tree at the next place is in the new store, which takes it if it is kept.
    fn moved_next(
        &self,
        kept: &[bool],
        moved: &[Option<NodeId>],
        compact: &mut Store<L>,
    ) -> Result<Option<NodeId>, AllocError>
        requires clones { (x y : L) → L.is_clone x y → y ≡ x }
        requires kept { length kept.now ≡ length self.now }
        requires sides { MarksSides self.now 0 kept.now }
        requires moves { Moves self.now kept.now moved.now compact.old }
        requires next { length moved.now < length self.now }
        ensures { IfOk result (λ id. Moves self.now kept.now (moved.now ++ id ∷ []) compact.new) }
    {
        let place = moved.len();
        if !kept[place] {
            return Ok(None);
        }
        match self.view(NodeId(place as u64)) {
            View::Leaf(leaf) => {
                let id = compact.leaf(leaf.clone()?)?;
                Ok(Some(id))
            }
            View::Node(test, yes, no) => {
                let id = compact.node(test, moved_to(moved, yes), moved_to(moved, no))?;
                Ok(Some(id))
            }
        }
    }
}

/// Where the tree at a place is in the new store.
fn moved_to(moved: &[Option<NodeId>], place: NodeId) -> NodeId
    requires { (id : ℕ) × MovesTo moved.now place id }
    ensures { MovesTo moved.now place result }
{
    match moved[place.0 as usize] {
        Some(id) => id,
        None => unreachable!(),
    }
}

/// The ids in the new store of these.
fn moved_ids(
    alloc: Global,
    moved: &[Option<NodeId>],
    roots: &[NodeId],
) -> Result<Vec<NodeId>, AllocError>
    requires { All (λ root. (id : ℕ) × MovesTo moved.now root id) roots.now }
    ensures { IfOk result (λ ids. AllZip (MovesTo moved.now) roots.now ids.items) }
{
    let mut ids = Vec::new(alloc);
    for root in roots {
        ids.push(moved_to(moved, *root))?;
    }
    Ok(ids)
}
