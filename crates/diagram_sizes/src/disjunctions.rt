//! Long disjunctions whose operands are out of order.
ghost use Rattle.std.specs.Prelude.{◌<◌, IfOk};
ghost use Rattle.pq_fields.specs.Pred.{pred_tree};
ghost use Rattle.diagram_sizes.specs.Disjunctions.{NamesOnly, IsTestable, numbers_of};

use pq_fields::{Field, Pred};
use std::alloc::{AllocError, Global};

/// What the operands of a disjunction test.
#[derive(Clone, Copy)]
pub enum Tested {
    /// The numbers of a field, from 1 on.
    Numbers(Field),
    /// The networks of length 24 that the IPv4 destination may be in, from 10.0.0.0 on.
    Networks,
}

/// The disjunction of this many tests, each a step further than the one before, around the whole.
///
/// No test comes twice if step and count have no common factor.
pub fn disjunction(alloc: Global, tested: Tested, count: u32, step: u32) -> Result<Pred, AllocError>
    requires some { 0 < count }
    requires testable { IsTestable tested count }
    ensures { IfOk result (λ p. NamesOnly (numbers_of tested count) (pred_tree p)) }
{
    let mut operands = Vec::new(alloc);
    let mut place = 0;
    for _ in 0..count {
        operands.push(operand(tested, count, place))?;
        place = next(place, step, count);
    }
    Ok(Pred::Or(operands))
}

/// The test at a place.
fn operand(tested: Tested, count: u32, place: u32) -> Pred
    requires testable { IsTestable tested count }
    requires place { place < count }
    ensures { NamesOnly (numbers_of tested count) (pred_tree result) }
{
    match tested {
        Tested::Numbers(field) => Pred::Equal(field, u64::from(place) + 1),
        Tested::Networks => Pred::Prefix(Field::Ipv4Dst, 0x0a00_0000 + 256 * place, 24),
    }
}

/// The place a step further, around the whole.
fn next(place: u32, step: u32, count: u32) -> u32
    requires { place < count }
    ensures { result < count }
{
    ((u64::from(place) + u64::from(step)) % u64::from(count)) as u32
}
