//! Atoms: one half step at a side, of whose packet a predicate holds.
ghost use Rattle.std.specs.Prelude.{◌≡◌, ◌∷◌, ◌⊎◌};
ghost use Rattle.std.proofs.Math.ListN.{get_or};
ghost use Rattle.pq_expr.specs.Word.{Word};
ghost use Rattle.pq_expr.specs.Language.{meets as meeting};
ghost use Rattle.pq_deriv.specs.Left.{atom_left};

use crate::parts::first_number;
use pq_expr::Side;

/// The number of the atom after the half step: 1 where it had not begun and is met, else 2.
pub(crate) fn step_atom(own: Side, pred: u32, rest: &[u64], side: Side, signature: &[bool]) -> u64
    ensures left { (w : Word) → atom_left own pred result w ≡ atom_left own pred (get_or rest.now 0 0) (record { side = side; truth = signature.now } ∷ w) }
    ensures number { (result ≡ 1) ⊎ (result ≡ 2) }
{
    if first_number(rest) != 0 {
        return 2;
    }
    if meets(own, pred, side, signature) {
        1
    } else {
        2
    }
}

/// Whether the half step is at the side, and the predicate holds of its packet.
fn meets(own: Side, pred: u32, side: Side, signature: &[bool]) -> bool
    ensures { result ≡ meeting own pred (record { side = side; truth = signature.now }) }
{
    match (own, side) {
        (Side::In, Side::In) | (Side::Out, Side::Out) => signature
            .get(pred as usize)
            .copied()
            .unwrap_or(false),
        _ => false,
    }
}
