//! Whether a rest accepts the empty word.
ghost use Rattle.std.specs.Prelude.{◌≡◌, ◌&&◌, ◌||◌, [], length};
ghost use Rattle.std.specs.List.{list_any, list_all};
ghost use Rattle.pq_expr.specs.Expr.{InTurn, expr_tree, expr_trees};
ghost use Rattle.pq_expr.specs.Language.{holds, languages};
ghost use Rattle.pq_deriv.specs.Parts.{parts, members};
ghost use Rattle.pq_deriv.specs.Left.{left, lefts, top_left, each_left, repeated_left};
ghost use Rattle.pq_deriv.specs.Stepped.{some_ends};

use crate::empties::holds_empty;
use crate::parts::{first_number, idle, split_gap, split_part, split_set};
use pq_expr::Expr;

/// Whether the rest of the expression accepts the empty word. It recurs as deep as the expression nests.
#[cycle(ends)]
pub(crate) fn ends(expr: &Expr, rest: &[u64]) -> bool
    ensures { result ≡ left (expr_tree expr.now) rest.now [] }
{
    match expr {
        Expr::Nothing => false,
        Expr::Empty | Expr::In(_) | Expr::Out(_) => first_number(rest) == 1,
        Expr::Cat(exprs) => turn_ends(exprs, rest),
        Expr::Or(exprs) => one_ends(exprs, rest),
        Expr::And(exprs) => all_end(exprs, rest),
        Expr::Not(expr) => !ends(expr, rest),
        Expr::Star(expr) => repetition_ends(expr, rest),
    }
}

/// Whether the rest of operands in turn accepts the empty word.
#[cycle(ends)]
fn turn_ends(exprs: &[Expr], rest: &[u64]) -> bool
    ensures { result ≡ top_left InTurn (languages (expr_trees exprs.now)) (lefts (expr_trees exprs.now)) rest.now [] }
{
    if exprs.is_empty() {
        return first_number(rest) == 1;
    }
    let (mut gap, mut left) = split_gap(rest);
    let mut begins = false;
    let mut place = 0;
    'operands: while place < exprs.len() {
        let skip = idle(begins, gap, left, exprs.len() - place);
        place += skip;
        if place >= exprs.len() {
            return begins;
        }
        let (set, next_gap, after) = split_set(gap.saturating_sub(skip as u64), left);
        begins = passes(&exprs[place], set, begins);
        gap = next_gap;
        left = after;
        place += 1;
    }
    begins
}

/// Whether what is after the operand can begin here: the operand begins here and holds the empty word, or a member
/// of its set accepts the empty word.
#[cycle(ends)]
pub(crate) fn passes(expr: &Expr, set: &[u64], begins: bool) -> bool
    ensures { result ≡ ((begins && holds (expr_tree expr.now) []) || some_ends (left (expr_tree expr.now)) (members set.now)) }
{
    if begins {
        if holds_empty(expr) {
            return true;
        }
    }
    member_ends(expr, set)
}

/// Whether a member of the set accepts the empty word.
#[cycle(ends)]
fn member_ends(expr: &Expr, set: &[u64]) -> bool
    ensures { result ≡ some_ends (left (expr_tree expr.now)) (members set.now) }
{
    let [count, members @ ..] = set else {
        return false;
    };
    let mut left = members;
    let mut more = *count;
    while more > 0 {
        let (part, after) = split_part(left);
        if ends(expr, part) {
            return true;
        }
        left = after;
        more -= 1;
    }
    false
}

/// Whether one of the rests accepts the empty word.
#[cycle(ends)]
fn one_ends(exprs: &[Expr], rest: &[u64]) -> bool
    ensures { result ≡ list_any (λ b. b) (each_left (lefts (expr_trees exprs.now)) (parts (length (lefts (expr_trees exprs.now))) rest.now) []) }
{
    let mut left = rest;
    for expr in exprs {
        let (part, after) = split_part(left);
        if ends(expr, part) {
            return true;
        }
        left = after;
    }
    false
}

/// Whether each of the rests accepts the empty word.
#[cycle(ends)]
fn all_end(exprs: &[Expr], rest: &[u64]) -> bool
    ensures { result ≡ list_all (λ b. b) (each_left (lefts (expr_trees exprs.now)) (parts (length (lefts (expr_trees exprs.now))) rest.now) []) }
{
    let mut left = rest;
    for expr in exprs {
        let (part, after) = split_part(left);
        if !ends(expr, part) {
            return false;
        }
        left = after;
    }
    true
}

/// Whether the rest of a repetition accepts the empty word.
#[cycle(ends)]
pub(crate) fn repetition_ends(expr: &Expr, rest: &[u64]) -> bool
    ensures { result ≡ repeated_left (holds (expr_tree expr.now)) (left (expr_tree expr.now)) rest.now [] }
{
    let [fresh, set @ ..] = rest else {
        return false;
    };
    if *fresh == 1 {
        return true;
    }
    member_ends(expr, set)
}
