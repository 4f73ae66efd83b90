//! The rests before any half step.
ghost use Rattle.std.specs.Prelude.{◌≡◌, ◌∷◌, length, IfOk};
ghost use Rattle.pq_expr.specs.Word.{Word};
ghost use Rattle.pq_expr.specs.Expr.{InTurn, expr_tree, expr_trees};
ghost use Rattle.pq_deriv.specs.Choices.{IsOneOf};
ghost use Rattle.pq_deriv.specs.Rests.{in_parts, top_rests, rests, IsRest};
ghost use Rattle.pq_expr.specs.Language.{holds, languages, in_turn};
ghost use Rattle.pq_deriv.specs.Left.{left, lefts, top_left};
ghost use Rattle.pq_deriv.specs.Stepped.{AreStarts};

use crate::parts::{one_number, push_part};
use pq_expr::Expr;
use std::alloc::{AllocError, Global};

/// The rest that accepts the words of the expression. It recurs as deep as the expression nests.
#[cycle(starts)]
pub(crate) fn start_rest(alloc: Global, expr: &Expr) -> Result<Vec<u64>, AllocError>
    ensures left { IfOk result (λ r. (w : Word) → left (expr_tree expr.now) r.items w ≡ holds (expr_tree expr.now) w) }
    ensures rest { IfOk result (λ r. IsRest (expr_tree expr.now) r.items) }
{
    match expr {
        Expr::Nothing => Ok(Vec::new(alloc)),
        Expr::Empty => one_number(alloc, 1),
        Expr::In(_) => one_number(alloc, 0),
        Expr::Out(_) => one_number(alloc, 0),
        Expr::Cat(exprs) => start_turn(alloc, exprs),
        Expr::Or(exprs) => start_each(alloc, exprs),
        Expr::And(exprs) => start_each(alloc, exprs),
        Expr::Not(expr) => start_rest(alloc, expr),
        Expr::Star(_) => one_number(alloc, 1),
    }
}

/// The rest of operands in turn that accepts their words: the first operand is begun.
#[cycle(starts)]
fn start_turn(alloc: Global, exprs: &[Expr]) -> Result<Vec<u64>, AllocError>
    ensures left { IfOk result (λ r. (w : Word)
        → top_left InTurn (languages (expr_trees exprs.now)) (lefts (expr_trees exprs.now)) r.items w
        ≡ in_turn (languages (expr_trees exprs.now)) w) }
    ensures rest { IfOk result (λ r. IsOneOf (top_rests InTurn (rests (expr_trees exprs.now))) r.items) }
{
    let [first, ..] = exprs else {
        return one_number(alloc, 1);
    };
    let start = start_rest(alloc, first)?;
    begun(alloc, &start)
}

/// The first set with this member alone, and all others empty.
fn begun(alloc: Global, start: &[u64]) -> Result<Vec<u64>, AllocError>
    ensures { IfOk result (λ r. r.items ≡ 0 ∷ length (1 ∷ length start.now ∷ start.now) ∷ 1 ∷ length start.now ∷ start.now) }
{
    let mut set = one_number(alloc, 1)?;
    push_part(&mut set, start)?;
    let mut out = one_number(alloc, 0)?;
    push_part(&mut out, &set)?;
    Ok(out)
}

/// The rests that accept the words of the expressions, each after its length.
#[cycle(starts)]
fn start_each(alloc: Global, exprs: &[Expr]) -> Result<Vec<u64>, AllocError>
    ensures left { IfOk result (λ r. AreStarts (expr_trees exprs.now) r.items) }
    ensures rest { IfOk result (λ r. IsOneOf (in_parts (rests (expr_trees exprs.now))) r.items) }
{
    let mut out = Vec::new(alloc);
    for expr in exprs {
        let rest = start_rest(alloc, expr)?;
        push_part(&mut out, &rest)?;
    }
    Ok(out)
}
