ghost use Rattle.std.specs.Prelude.{◌≡◌, ◌<◌, length, Some, slice_get, [], IfOk, OnErr, if◌then◌else◌};
ghost use Rattle.pq_fields.specs.Packet.{Numbers};
ghost use Rattle.pq_store.specs.Test.{passes};
ghost use Rattle.pq_store.specs.Tree.{Tree};
ghost use Rattle.pq_store.specs.Tree.Tree.{Tip};
ghost use Rattle.pq_store.specs.Store.{value_at, Keeps, AddsOnly, AreDiagrams, IsCanonical, IsJoinable, JoinsAt, IsPastAt};
ghost use Rattle.pq_store.specs.View.{Shows};
ghost use Rattle.pq_store.specs.Arena.{CanStand, tree_of};

use crate::cell::{Branch, Cell};
use crate::leaf::Leaf;
use crate::node_id::NodeId;
use crate::test::Test;
use crate::view::View;
use indexmap::IndexSet;
use pq_fields::Packet;
use std::alloc::{AllocError, Global};
use std::marker::Model;

/// Diagrams that share their nodes: one id for each function from packets to leaves.
///
/// Sides are below their nodes, tests ascend on every path, below the yes side of a number no other number of its field is
/// tested, no node has equal sides, no two nodes are equal, and no path tests more than half of a field's numbers minus one
/// (after Bryant, Graph-based algorithms for Boolean function manipulation, 1986).
#[derive(Drop)]
pub struct Store<L: Leaf> {
    cells: IndexSet<Cell<L>>,
}

impl<L: Leaf> Model for Store<L> {
    ghost use Rattle.std.specs.Prelude.{List};
    ghost use Rattle.std.specs.Coded.{coded_list};
    ghost use Rattle.pq_store.specs.Tree.{Tree};
    ghost use Rattle.pq_store.specs.Code.{coded_tree};
    ghost use Rattle.pq_store.specs.contracts.test.Test as tests;
    ghost use Rattle.pq_store.specs.Arena.{trees, IsArena};

    ghost Value = { List (Tree L) };

    ghost coded = { coded_list (coded_tree tests.the_row.coded L.code) };

    ghost view = { λ s. trees s.cells.keys };

    ghost invariant = { λ s. IsArena s.cells.keys };
}

impl<L: Leaf> Store<L> {
    /// A store without nodes and leaves.
    pub fn new(alloc: Global) -> Store<L>
        ensures { result ≡ [] }
    {
        Store {
            cells: IndexSet::new(alloc),
        }
    }

    /// A store without nodes and leaves, with room for this number of them.
    pub(crate) fn with_room(alloc: Global, count: usize) -> Result<Store<L>, AllocError>
        ensures { IfOk result (λ store. store ≡ []) }
    {
        let cells = IndexSet::with_capacity(alloc, count)?;
        Ok(Store { cells })
    }

    /// The number of nodes and leaves.
    pub fn count(&self) -> u64
        ensures { result ≡ length self.now }
    {
        self.cells.len() as u64
    }

    /// Where the store takes its memory: there is one global allocator, so any two handles of it are equal.
    pub fn allocator(&self) -> Global
        ensures { (other : Global) → result ≡ other }
    {
        *self.cells.allocator()
    }

    /// The id of a leaf.
    pub fn leaf(&mut self, value: L) -> Result<NodeId, AllocError>
        ensures leaf { IfOk result (λ id. slice_get self.new id ≡ Some (Tip value)) }
        ensures keeps { Keeps self.old self.new }
        ensures adds { IfOk result (λ id. AddsOnly self.old self.new id) }
        ensures err { OnErr result (self.new ≡ self.old) }
        ensures canonical { IsCanonical self.new }
    {
        self.put(Cell::Leaf(value))
    }

    /// The id of a test with these sides; equal sides give the no side.
    ///
    /// The test is lawful and is before all tests of both sides, a number's yes side tests no other number of its field,
    /// and no path tests too many of a field's numbers.
    pub fn node(&mut self, test: Test, yes: NodeId, no: NodeId) -> Result<NodeId, AllocError>
        requires yes { yes < length self.old }
        requires no { no < length self.old }
        requires sides { (y n : Tree L) → slice_get self.old yes ≡ Some y → slice_get self.old no ≡ Some n → IsJoinable test y n }
        ensures tree { IfOk result (λ id. JoinsAt self.old test yes no self.new id) }
        ensures value { IfOk result (λ id. (x : Numbers)
            → value_at self.new id x ≡ (if passes test x then value_at self.old yes x else value_at self.old no x)) }
        ensures keeps { Keeps self.old self.new }
        ensures adds { IfOk result (λ id. AddsOnly self.old self.new id) }
        ensures err { OnErr result (self.new ≡ self.old) }
        ensures canonical { IsCanonical self.new }
    {
        // Brings the store's invariant into the proof, on both paths.
        let _ = &self.cells;
        let past = self.past(test, no);
        if yes == past {
            return Ok(no);
        }
        let id = self.put(Cell::Branch(Branch {
            test,
            yes,
            no,
            past,
        }))?;
        Ok(id)
    }

    /// What a node says of the packets that pass the test, where it asks the test's field, if at all, first.
    pub fn past(&self, test: Test, node: NodeId) -> NodeId
        requires { node < length self.now }
        ensures within { result < length self.now }
        ensures past { IsPastAt self.now test node result }
    {
        match (test, &self.cells[node.0 as usize]) {
            (Test::Equal(field, _), Cell::Branch(branch)) => branch.behind(field, node),
            _ => node,
        }
    }

    /// What is at an id.
    pub fn view(&self, node: NodeId) -> View<'_, L>
        requires { node < length self.now }
        ensures shows { Shows self.now node result }
        ensures diagrams { AreDiagrams self.now }
        ensures canonical { IsCanonical self.now }
    {
        match &self.cells[node.0 as usize] {
            Cell::Leaf(leaf) => View::Leaf(leaf),
            Cell::Branch(branch) => View::Node(branch.test, branch.yes, branch.no),
        }
    }

    /// Law: each id has a diagram, and ids with equal values on every packet are equal.
    pub fn has_diagrams(&self)
        ensures diagrams { AreDiagrams self.now }
        ensures canonical { IsCanonical self.now }
    {
        // Brings the store's invariant into the proof.
        let _ = &self.cells;
    }

    /// The leaf that the packet reaches.
    pub fn eval(&self, node: NodeId, x: &Packet) -> &L
        requires { node < length self.now }
        ensures { value_at self.now node x.now ≡ Some result.now }
    {
        let mut at = node;
        loop {
            match self.view(at) {
                View::Leaf(leaf) => return leaf,
                View::Node(test, yes, no) => at = if test.passes(x) { yes } else { no },
            }
        }
    }

    /// The id of a cell: that of an equal one, where there is one.
    fn put(&mut self, cell: Cell<L>) -> Result<NodeId, AllocError>
        requires { CanStand self.old cell }
        ensures tree { IfOk result (λ id. slice_get self.new id ≡ tree_of self.old cell) }
        ensures keeps { Keeps self.old self.new }
        ensures adds { IfOk result (λ id. AddsOnly self.old self.new id) }
        ensures err { OnErr result (self.new ≡ self.old) }
        ensures canonical { IsCanonical self.new }
    {
        match self.cells.insert_full(cell) {
            Ok((place, _)) => Ok(NodeId(place as u64)),
            Err(_) => Err(AllocError),
        }
    }
}
