//! Rests after a half step.
ghost use Rattle.std.specs.Prelude.{◌≡◌, [], ◌∷◌, false, map, IfOk};
ghost use Rattle.pq_expr.specs.Word.{Word};
ghost use Rattle.pq_expr.specs.Expr.{InTurn, Repeated, expr_tree, expr_trees};
ghost use Rattle.pq_expr.specs.Language.{Language, holds, languages};
ghost use Rattle.pq_deriv.specs.Parts.{members};
ghost use Rattle.pq_deriv.specs.Left.{left, lefts, set_left, top_left, repeated_left};
ghost use Rattle.pq_deriv.specs.Choices.{IsOneOf};
ghost use Rattle.pq_deriv.specs.Rests.{AreMembers, sets, in_parts, in_sets, top_rests, rests, all_rests, IsRest};
ghost use Rattle.pq_deriv.specs.Stepped.{stepped_left, IsSetStepped, AreStepped, AreSetsStepped};

use crate::atoms::step_atom;
use crate::ends::{passes, repetition_ends};
use crate::parts::{idle, one_number, push_part, push_set, split_gap, split_part, split_set};
use crate::sets::{put, spell_set};
use crate::starts::start_rest;
use pq_expr::{Expr, Side};
use std::alloc::{AllocError, Global};

/// The rest after the half step. It recurs as deep as the expression nests.
#[cycle(steps)]
pub(crate) fn step_rest(
    alloc: Global,
    expr: &Expr,
    rest: &[u64],
    side: Side,
    signature: &[bool],
) -> Result<Vec<u64>, AllocError>
    ensures left { IfOk result (λ r. (w : Word)
        → left (expr_tree expr.now) r.items w ≡ left (expr_tree expr.now) rest.now (record { side = side; truth = signature.now } ∷ w)) }
    ensures rest { IfOk result (λ r. IsRest (expr_tree expr.now) r.items) }
{
    match expr {
        Expr::Nothing => Ok(Vec::new(alloc)),
        Expr::Empty => one_number(alloc, 0),
        Expr::In(pred) => one_number(alloc, step_atom(Side::In, *pred, rest, side, signature)),
        Expr::Out(pred) => one_number(alloc, step_atom(Side::Out, *pred, rest, side, signature)),
        Expr::Cat(exprs) => step_turn(alloc, exprs, rest, side, signature),
        Expr::Or(exprs) => step_each(alloc, exprs, rest, side, signature),
        Expr::And(exprs) => step_each(alloc, exprs, rest, side, signature),
        Expr::Not(expr) => step_rest(alloc, expr, rest, side, signature),
        Expr::Star(expr) => step_repetition(alloc, expr, rest, side, signature),
    }
}

/// The rests after the half step, each after its length.
#[cycle(steps)]
fn step_each(
    alloc: Global,
    exprs: &[Expr],
    rest: &[u64],
    side: Side,
    signature: &[bool],
) -> Result<Vec<u64>, AllocError>
    ensures left { IfOk result (λ r. AreStepped (record { side = side; truth = signature.now }) (expr_trees exprs.now) rest.now r.items) }
    ensures rest { IfOk result (λ r. IsOneOf (in_parts (rests (expr_trees exprs.now))) r.items) }
{
    let mut out = Vec::new(alloc);
    let mut left = rest;
    for expr in exprs {
        let (part, after) = split_part(left);
        let stepped = step_rest(alloc, expr, part, side, signature)?;
        push_part(&mut out, &stepped)?;
        left = after;
    }
    Ok(out)
}

/// The rest of operands in turn after the half step.
#[cycle(steps)]
fn step_turn(
    alloc: Global,
    exprs: &[Expr],
    rest: &[u64],
    side: Side,
    signature: &[bool],
) -> Result<Vec<u64>, AllocError>
    ensures left { IfOk result (λ r. (w : Word)
        → top_left InTurn (languages (expr_trees exprs.now)) (lefts (expr_trees exprs.now)) r.items w
        ≡ top_left InTurn (languages (expr_trees exprs.now)) (lefts (expr_trees exprs.now)) rest.now
        (record { side = side; truth = signature.now } ∷ w)) }
    ensures rest { IfOk result (λ r. IsOneOf (top_rests InTurn (rests (expr_trees exprs.now))) r.items) }
{
    if exprs.is_empty() {
        return one_number(alloc, 0);
    }
    step_sets(alloc, exprs, rest, side, signature)
}

/// The sets of operands in turn after the half step. Where an operand can begin before the half step, it does. Operands that
/// aren't begun, and can't begin, are passed over at once.
#[cycle(steps)]
fn step_sets(
    alloc: Global,
    exprs: &[Expr],
    rest: &[u64],
    side: Side,
    signature: &[bool],
) -> Result<Vec<u64>, AllocError>
    ensures left { IfOk result (λ r. AreSetsStepped (record { side = side; truth = signature.now }) (expr_trees exprs.now) false rest.now r.items) }
    ensures rest { IfOk result (λ r. IsOneOf (in_sets (map sets (rests (expr_trees exprs.now)))) r.items) }
{
    let mut out = Vec::new(alloc);
    let mut empties = 0;
    let (mut gap, mut left) = split_gap(rest);
    let mut begins = false;
    let mut place = 0;
    'operands: while place < exprs.len() {
        let skip = idle(begins, gap, left, exprs.len() - place);
        place += skip;
        if place >= exprs.len() {
            return Ok(out);
        }
        let (set, next_gap, after) = split_set(gap.saturating_sub(skip as u64), left);
        let expr = &exprs[place];
        let stepped = step_set(alloc, expr, set, begins, side, signature)?;
        empties = push_set(&mut out, empties + skip as u64, &stepped)?;
        begins = passes(expr, set, begins);
        gap = next_gap;
        left = after;
        place += 1;
    }
    Ok(out)
}

/// The rest of a repetition after the half step. Where a word of it can begin before the half step, it does.
#[cycle(steps)]
fn step_repetition(
    alloc: Global,
    expr: &Expr,
    rest: &[u64],
    side: Side,
    signature: &[bool],
) -> Result<Vec<u64>, AllocError>
    ensures left { IfOk result (λ r. (w : Word)
        → repeated_left (holds (expr_tree expr.now)) (left (expr_tree expr.now)) r.items w
        ≡ repeated_left (holds (expr_tree expr.now)) (left (expr_tree expr.now)) rest.now
        (record { side = side; truth = signature.now } ∷ w)) }
    ensures rest { IfOk result (λ r. IsOneOf (top_rests Repeated (all_rests (expr_tree expr.now) ∷ [])) r.items) }
{
    let begins = repetition_ends(expr, rest);
    let [_, set @ ..] = rest else {
        return one_number(alloc, 0);
    };
    let stepped = step_set(alloc, expr, set, begins, side, signature)?;
    let mut out = one_number(alloc, 0)?;
    out.extend_from_slice(&stepped)?;
    Ok(out)
}

/// The set after the half step; where the expression begins before it, also its start after the half step.
#[cycle(steps)]
fn step_set(
    alloc: Global,
    expr: &Expr,
    set: &[u64],
    begins: bool,
    side: Side,
    signature: &[bool],
) -> Result<Vec<u64>, AllocError>
    ensures left { IfOk result (λ r. IsSetStepped (record { side = side; truth = signature.now }) (expr_tree expr.now) begins
        (members set.now) (members r.items)) }
    ensures set { IfOk result (λ r. IsOneOf (sets (all_rests (expr_tree expr.now))) r.items) }
{
    let mut stepped = step_members(alloc, expr, set, side, signature)?;
    if !begins {
        return spell_set(alloc, &stepped);
    }
    let start = start_rest(alloc, expr)?;
    let begun = step_rest(alloc, expr, &start, side, signature)?;
    put(expr, &mut stepped, begun)?;
    spell_set(alloc, &stepped)
}

/// The members of the set after the half step, those left out that are dead.
#[cycle(steps)]
fn step_members(
    alloc: Global,
    expr: &Expr,
    set: &[u64],
    side: Side,
    signature: &[bool],
) -> Result<Vec<Vec<u64>>, AllocError>
    ensures left { IfOk result (λ s. (P : Language) (w : Word)
        → set_left (left (expr_tree expr.now)) P (map (λ r. r.items) s.items) w
        ≡ stepped_left (record { side = side; truth = signature.now }) (left (expr_tree expr.now)) P (members set.now) w) }
    ensures members { IfOk result (λ s. AreMembers (all_rests (expr_tree expr.now)) (map (λ r. r.items) s.items)) }
{
    let mut stepped = Vec::new(alloc);
    let [count, members @ ..] = set else {
        return Ok(stepped);
    };
    let mut left = members;
    let mut more = *count;
    while more > 0 {
        let (part, after) = split_part(left);
        let rest = step_rest(alloc, expr, part, side, signature)?;
        put(expr, &mut stepped, rest)?;
        left = after;
        more -= 1;
    }
    Ok(stepped)
}
