//! Rests that accept no word, as far as their numbers show it.
ghost use Rattle.std.specs.Prelude.{◌≡◌, true, false, length};
ghost use Rattle.std.specs.List.{list_any, list_all};
ghost use Rattle.pq_expr.specs.Word.{Word};
ghost use Rattle.pq_expr.specs.Expr.{InTurn, expr_tree, expr_trees};
ghost use Rattle.pq_expr.specs.Language.{Language, languages};
ghost use Rattle.pq_deriv.specs.Parts.{parts};
ghost use Rattle.pq_deriv.specs.Left.{Left, left, lefts, top_left, each_left, repeated_left};

use crate::parts::{first_number, split_part};
use pq_expr::Expr;

/// Whether the rest shows that it accepts no word. Rests of which this is false may accept none as well.
/// It recurs as deep as the expression nests.
#[cycle(dead)]
pub(crate) fn is_dead(expr: &Expr, rest: &[u64]) -> bool
    ensures { result ≡ true → (w : Word) → left (expr_tree expr.now) rest.now w ≡ false }
{
    match expr {
        Expr::Nothing => true,
        Expr::Empty => first_number(rest) != 1,
        Expr::In(_) => first_number(rest) > 1,
        Expr::Out(_) => first_number(rest) > 1,
        Expr::Cat(exprs) => turn_is_dead(exprs, rest),
        Expr::Or(exprs) => all_are_dead(exprs, rest),
        Expr::And(exprs) => one_is_dead(exprs, rest),
        Expr::Not(_) => false,
        Expr::Star(_) => repetition_is_dead(rest),
    }
}

/// Whether no operand is begun.
fn turn_is_dead(exprs: &[Expr], rest: &[u64]) -> bool
    ensures { result ≡ true → (w : Word) → top_left InTurn (languages (expr_trees exprs.now)) (lefts (expr_trees exprs.now)) rest.now w ≡ false }
{
    if exprs.is_empty() {
        return first_number(rest) != 1;
    }
    rest.is_empty()
}

/// Whether each of the rests is dead.
#[cycle(dead)]
fn all_are_dead(exprs: &[Expr], rest: &[u64]) -> bool
    ensures { result ≡ true → (w : Word) → list_any (λ b. b)
        (each_left (lefts (expr_trees exprs.now)) (parts (length (lefts (expr_trees exprs.now))) rest.now) w) ≡ false }
{
    let mut left = rest;
    for expr in exprs {
        let (part, after) = split_part(left);
        if !is_dead(expr, part) {
            return false;
        }
        left = after;
    }
    true
}

/// Whether one of the rests is dead.
#[cycle(dead)]
fn one_is_dead(exprs: &[Expr], rest: &[u64]) -> bool
    ensures { result ≡ true → (w : Word) → list_all (λ b. b)
        (each_left (lefts (expr_trees exprs.now)) (parts (length (lefts (expr_trees exprs.now))) rest.now) w) ≡ false }
{
    let mut left = rest;
    for expr in exprs {
        let (part, after) = split_part(left);
        if is_dead(expr, part) {
            return true;
        }
        left = after;
    }
    false
}

/// Whether something was read, and no operand is begun.
fn repetition_is_dead(rest: &[u64]) -> bool
    ensures { result ≡ true → (P : Language) (left : Left) (w : Word) → repeated_left P left rest.now w ≡ false }
{
    let [fresh, set @ ..] = rest else {
        return true;
    };
    if *fresh == 1 {
        return false;
    }
    set.is_empty()
}
