//! What is true of all expressions.
ghost use Rattle.std.specs.Prelude.{◌≡◌, ◌≤◌, ◌++◌, List, length};
ghost use Rattle.pq_fields.specs.Pred.{PredTree};
ghost use Rattle.pq_model.specs.Word.{Word};
ghost use Rattle.pq_expr.specs.Expr.{ExprTree, bound};
ghost use Rattle.pq_expr.specs.Language.{holds};
ghost use Rattle.pq_lower.specs.HalfSteps.{half_steps};

/// An expression that names only predicates of a list holds the same words where more predicates come after them.
pub fn more_predicates_tell_the_same()
    ensures { (e : ExprTree) (ps more : List PredTree) (w : Word) → bound e ≤ length ps → holds e (half_steps (ps ++ more) w) ≡ holds e (half_steps ps w) }
{}
