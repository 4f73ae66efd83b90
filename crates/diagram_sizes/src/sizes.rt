//! The sizes of diagrams.
ghost use Rattle.std.specs.Prelude.{◌<◌, IfOk};
ghost use Rattle.pq_fields.specs.Pred.{IsLawfulPred, pred_tree};
ghost use Rattle.pq_apply.specs.Predicates.{FitsAsNode};
ghost use Rattle.diagram_sizes.specs.Disjunctions.{AreSizesNaming, IsTestable, numbers_of};
ghost use Rattle.diagram_sizes.specs.Sizes.{AreSizes};

use crate::disjunctions::{Tested, disjunction};
use pq_apply::pred_node;
use pq_fields::Pred;
use pq_store::Store;
use std::alloc::{AllocError, Global};
use std::fmt;

/// How large a diagram is, and the store in which it was built.
#[derive(Clone, Copy)]
pub struct Sizes {
    /// The nodes and leaves of the diagram.
    pub diagram: u64,
    /// All nodes and leaves of the store, with those of its operands and of steps on the way.
    pub store: u64,
}

impl fmt::Display for Sizes {
    fn fmt<W: fmt::Write>(&self, f: &mut fmt::Formatter<W>) -> fmt::Result {
        write!(
            f,
            "{} nodes and leaves, {} in the store",
            self.diagram, self.store
        )
    }
}

/// How large the diagram is of the disjunction of this many tests, each a step further than the one before.
pub fn list_sizes(alloc: Global, tested: Tested, count: u32, step: u32) -> Result<Sizes, AllocError>
    requires some { 0 < count }
    requires testable { IsTestable tested count }
    ensures { IfOk result (AreSizesNaming (numbers_of tested count)) }
{
    let pred = disjunction(alloc, tested, count, step)?;
    let sizes = sizes_of(alloc, &pred)?;
    Ok(sizes)
}

/// How large the diagram of a predicate is, and a store that was empty before it.
fn sizes_of(alloc: Global, pred: &Pred) -> Result<Sizes, AllocError>
    requires lawful { IsLawfulPred (pred_tree pred.now) }
    requires fits { FitsAsNode (pred_tree pred.now) }
    ensures { IfOk result (AreSizes (pred_tree pred.now)) }
{
    let mut store = Store::new(alloc);
    let root = pred_node(&mut store, pred)?;
    let (diagram, _ids) = store.compacted(&[root])?;
    Ok(Sizes {
        diagram: diagram.count(),
        store: store.count(),
    })
}
