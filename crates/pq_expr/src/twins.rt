//! Copies of expressions.
ghost use Rattle.std.specs.Prelude.{◌≡◌, IfOk};
ghost use Rattle.pq_expr.specs.Expr.{expr_tree, expr_trees};

use crate::expr::Expr;
use std::alloc::{AllocError, Global};

impl Expr {
    /// An equal expression; it fails only where there is no memory for it.
    #[cycle(copy)]
    pub fn copy(&self, alloc: Global) -> Result<Expr, AllocError>
        ensures { IfOk result (λ e. expr_tree e ≡ expr_tree self.now) }
    {
        match self {
            Expr::Nothing => Ok(Expr::Nothing),
            Expr::Empty => Ok(Expr::Empty),
            Expr::In(pred) => Ok(Expr::In(*pred)),
            Expr::Out(pred) => Ok(Expr::Out(*pred)),
            Expr::Cat(exprs) => Ok(Expr::Cat(copies(alloc, exprs)?)),
            Expr::Or(exprs) => Ok(Expr::Or(copies(alloc, exprs)?)),
            Expr::And(exprs) => Ok(Expr::And(copies(alloc, exprs)?)),
            Expr::Not(expr) => Ok(Expr::Not(boxed_copy(alloc, expr)?)),
            Expr::Star(expr) => Ok(Expr::Star(boxed_copy(alloc, expr)?)),
        }
    }
}

/// An equal expression, on the heap.
#[cycle(copy)]
fn boxed_copy(alloc: Global, expr: &Expr) -> Result<Box<Expr>, AllocError>
    ensures { IfOk result (λ b. expr_tree b.value ≡ expr_tree expr.now) }
{
    let copy = expr.copy(alloc)?;
    match Box::new(alloc, copy) {
        Ok(boxed) => Ok(boxed),
        Err(_) => Err(AllocError),
    }
}

/// Equal expressions, in order.
#[cycle(copy)]
fn copies(alloc: Global, exprs: &[Expr]) -> Result<Vec<Expr>, AllocError>
    ensures { IfOk result (λ es. expr_trees es.items ≡ expr_trees exprs.now) }
{
    let mut all = Vec::new(alloc);
    for expr in exprs {
        let copy = expr.copy(alloc)?;
        all.push(copy)?;
    }
    Ok(all)
}
