//! The predicate numbers in an expression.
ghost use Rattle.std.specs.Prelude.{◌≡◌};
ghost use Rattle.pq_expr.specs.Expr.{bound, bounds, expr_tree, expr_trees};

use crate::expr::Expr;

impl Expr {
    /// One more than the greatest predicate number in the expression, 0 where there is none.
    #[cycle(bound)]
    pub fn bound(&self) -> u64
        ensures { result ≡ bound (expr_tree self.now) }
    {
        match self {
            Expr::Nothing | Expr::Empty => 0,
            Expr::In(pred) | Expr::Out(pred) => u64::from(*pred) + 1,
            Expr::Cat(exprs) | Expr::Or(exprs) | Expr::And(exprs) => greatest_bound(exprs),
            Expr::Not(expr) | Expr::Star(expr) => expr.bound(),
        }
    }
}

/// One more than the greatest predicate number in the expressions.
#[cycle(bound)]
fn greatest_bound(exprs: &[Expr]) -> u64
    ensures { result ≡ bounds (expr_trees exprs.now) }
{
    let mut greatest = 0;
    for expr in exprs {
        greatest = greatest.max(expr.bound());
    }
    greatest
}
