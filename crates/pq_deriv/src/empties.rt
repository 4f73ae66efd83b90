//! Which expressions hold the empty word.
ghost use Rattle.std.specs.Prelude.{◌≡◌, []};
ghost use Rattle.std.specs.List.{list_any, list_all};
ghost use Rattle.pq_expr.specs.Expr.{expr_tree, expr_trees};
ghost use Rattle.pq_expr.specs.Language.{holds, languages};

use pq_expr::Expr;

/// Whether the expression holds the empty word. It recurs as deep as the expression nests.
#[cycle(empties)]
pub(crate) fn holds_empty(expr: &Expr) -> bool
    ensures { result ≡ holds (expr_tree expr.now) [] }
{
    match expr {
        Expr::Nothing | Expr::In(_) | Expr::Out(_) => false,
        Expr::Empty | Expr::Star(_) => true,
        Expr::Cat(exprs) | Expr::And(exprs) => all_hold_empty(exprs),
        Expr::Or(exprs) => one_holds_empty(exprs),
        Expr::Not(expr) => !holds_empty(expr),
    }
}

/// Whether each of the expressions holds the empty word.
#[cycle(empties)]
fn all_hold_empty(exprs: &[Expr]) -> bool
    ensures { result ≡ list_all (λ P. P []) (languages (expr_trees exprs.now)) }
{
    for expr in exprs {
        if !holds_empty(expr) {
            return false;
        }
    }
    true
}

/// Whether one of the expressions holds the empty word.
#[cycle(empties)]
fn one_holds_empty(exprs: &[Expr]) -> bool
    ensures { result ≡ list_any (λ P. P []) (languages (expr_trees exprs.now)) }
{
    for expr in exprs {
        if holds_empty(expr) {
            return true;
        }
    }
    false
}
