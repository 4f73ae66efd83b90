//! Expressions of operators.
ghost use Rattle.std.specs.Prelude.{◌≡◌, [], ◌∷◌, IfOk, map};
ghost use Rattle.pq_expr.specs.Expr.{expr_tree};
ghost use Rattle.pq_lower.specs.Operators.{all_of, any_of, entry, hop, optional_out, other_than, repeated, turn_of};

use pq_expr::Expr;
use std::alloc::{AllocError, Global};

/// An expression on the heap.
fn boxed(alloc: Global, expr: Expr) -> Result<Box<Expr>, AllocError>
    ensures { IfOk result (λ b. expr_tree b.value ≡ expr_tree expr) }
{
    match Box::new(alloc, expr) {
        Ok(boxed) => Ok(boxed),
        Err(_) => Err(AllocError),
    }
}

/// A list of two expressions.
fn two(alloc: Global, first: Expr, second: Expr) -> Result<Vec<Expr>, AllocError>
    ensures { IfOk result (λ es. map expr_tree es.items ≡ expr_tree first ∷ expr_tree second ∷ []) }
{
    let mut all = Vec::new(alloc);
    all.push(first)?;
    all.push(second)?;
    Ok(all)
}

/// Nothing, or an Out.
fn optional_out(alloc: Global, always: u32) -> Result<Expr, AllocError>
    ensures { IfOk result (λ e. expr_tree e ≡ optional_out always) }
{
    let either = two(alloc, Expr::Empty, Expr::Out(always))?;
    Ok(Expr::Or(either))
}

/// A half step In, with or without an Out before it.
pub(crate) fn entry(alloc: Global, always: u32, number: u32) -> Result<Expr, AllocError>
    ensures { IfOk result (λ e. expr_tree e ≡ entry always number) }
{
    let optional = optional_out(alloc, always)?;
    let parts = two(alloc, optional, Expr::In(number))?;
    Ok(Expr::Cat(parts))
}

/// A half step In and then an Out, with or without an Out before them.
pub(crate) fn hop(alloc: Global, always: u32, first: u32, second: u32) -> Result<Expr, AllocError>
    ensures { IfOk result (λ e. expr_tree e ≡ hop always first second) }
{
    let optional = optional_out(alloc, always)?;
    let mut parts = two(alloc, optional, Expr::In(first))?;
    parts.push(Expr::Out(second))?;
    Ok(Expr::Cat(parts))
}

/// Expressions one after another.
pub(crate) fn turn_of(exprs: Vec<Expr>) -> Expr
    ensures { expr_tree result ≡ turn_of (map expr_tree exprs.items) }
{
    if exprs.is_empty() {
        return Expr::Empty;
    }
    Expr::Cat(exprs)
}

/// Any of the expressions.
pub(crate) fn any_of(exprs: Vec<Expr>) -> Expr
    ensures { expr_tree result ≡ any_of (map expr_tree exprs.items) }
{
    if exprs.is_empty() {
        return Expr::Nothing;
    }
    Expr::Or(exprs)
}

/// All the expressions.
pub(crate) fn all_of(alloc: Global, always: u32, exprs: Vec<Expr>) -> Result<Expr, AllocError>
    ensures { IfOk result (λ e. expr_tree e ≡ all_of always (map expr_tree exprs.items)) }
{
    if exprs.is_empty() {
        return other_than(alloc, always, Expr::Nothing);
    }
    Ok(Expr::And(exprs))
}

/// What the expression doesn't hold; an Out that no word follows isn't held either.
pub(crate) fn other_than(alloc: Global, always: u32, expr: Expr) -> Result<Expr, AllocError>
    ensures { IfOk result (λ e. expr_tree e ≡ other_than always (expr_tree expr)) }
{
    let either = two(alloc, expr, Expr::Out(always))?;
    let boxed = boxed(alloc, Expr::Or(either))?;
    Ok(Expr::Not(boxed))
}

/// Any number of words of the expression.
pub(crate) fn repeated(alloc: Global, expr: Expr) -> Result<Expr, AllocError>
    ensures { IfOk result (λ e. expr_tree e ≡ repeated (expr_tree expr)) }
{
    let boxed = boxed(alloc, expr)?;
    Ok(Expr::Star(boxed))
}
