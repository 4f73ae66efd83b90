//! The expressions of atoms.
ghost use Rattle.std.specs.Prelude.{◌≡◌, ◌<◌, ◌+◌, ◌^◌, [], ◌∷◌, ◌++◌, IfOk, OnOk, map, length};
ghost use Rattle.pq_fields.specs.Pred.{pred_tree};
ghost use Rattle.pq_expr.specs.Expr.{expr_tree};
ghost use Rattle.pq_lower.specs.Operators.{entry, hop};

use crate::operators::{entry, hop};
use crate::predicates::add;
use pq_expr::Expr;
use pq_fields::Pred;
use std::alloc::{AllocError, Global};

/// An atom of one packet that enters.
pub(crate) fn one_seen(
    alloc: Global,
    base: u32,
    pred: Pred,
    added: &mut Vec<Pred>,
) -> Result<Expr, AllocError>
    requires { base + length added.old.items < 2 ^ 32 }
    ensures expr { IfOk result (λ e. expr_tree e ≡ entry base (base + length added.old.items)) }
    ensures added { OnOk result (map pred_tree added.new.items ≡ map pred_tree added.old.items ++ pred_tree pred ∷ []) }
{
    let number = add(base, pred, added)?;
    let expr = entry(alloc, base, number)?;
    Ok(expr)
}

/// An atom of one packet that leaves.
pub(crate) fn one_sent(
    alloc: Global,
    base: u32,
    pred: Pred,
    added: &mut Vec<Pred>,
) -> Result<Expr, AllocError>
    requires { base + length added.old.items < 2 ^ 32 }
    ensures expr { IfOk result (λ e. expr_tree e ≡ hop base base (base + length added.old.items)) }
    ensures added { OnOk result (map pred_tree added.new.items ≡ map pred_tree added.old.items ++ pred_tree pred ∷ []) }
{
    let number = add(base, pred, added)?;
    let expr = hop(alloc, base, base, number)?;
    Ok(expr)
}

/// An atom of two packets.
pub(crate) fn two_seen(
    alloc: Global,
    base: u32,
    first: Pred,
    second: Pred,
    added: &mut Vec<Pred>,
) -> Result<Expr, AllocError>
    requires { base + length added.old.items + 1 < 2 ^ 32 }
    ensures expr { IfOk result (λ e. expr_tree e ≡ hop base (base + length added.old.items) (base + length added.old.items + 1)) }
    ensures added { OnOk result (map pred_tree added.new.items ≡ map pred_tree added.old.items ++ pred_tree first ∷ pred_tree second ∷ []) }
{
    let one = add(base, first, added)?;
    let other = add(base, second, added)?;
    let expr = hop(alloc, base, one, other)?;
    Ok(expr)
}
