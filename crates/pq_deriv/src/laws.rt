//! What is true of all states.
ghost use Rattle.std.specs.Prelude.{◌≡◌, ◌≤◌, ℕ, true, List, length, nat_eq};
ghost use Rattle.std.specs.List.{AllByRecursion, IsDistinct};
ghost use Rattle.std.specs.Cmp.Lexicographic.{pointwise};
ghost use Rattle.pq_expr.specs.Word.{Word};
ghost use Rattle.pq_expr.specs.Expr.{expr_tree, ExprTree, IsLawful};
ghost use Rattle.pq_deriv.specs.Most.{most};
ghost use Rattle.pq_deriv.specs.Rests.{all_rests, IsRest};
ghost use Rattle.pq_deriv.specs.State.{accepted, StateValue};
ghost use Rattle.pq_deriv.specs.Order.{state_eq};

/// States that have one expression and are equal by `==` are one state. Of equal expressions they have one rest, and accept the
/// same words.
pub fn equal_states_of_one_expression_are_one()
    ensures one { (a b : StateValue) → a.expr ≡ b.expr → state_eq a b ≡ true → a ≡ b }
    ensures words { (a b : StateValue) → expr_tree a.expr ≡ expr_tree b.expr → state_eq a b ≡ true → (a.rest ≡ b.rest)
        × ((w : Word) → accepted a w ≡ accepted b w) }
{}

/// A lawful expression, none of whose lists of operands is empty, has at most `most` rests: this many are in the list of
/// all of them, and this many can be found of which no two are equal. Each state that `start` and `step` give has one of
/// them, so an expression has at most this many states.
pub fn rests_are_few()
    ensures all { (e : ExprTree) → IsLawful e → length (all_rests e) ≤ most e }
    ensures distinct { (e : ExprTree) → IsLawful e → (rs : List (List ℕ)) → IsDistinct (pointwise nat_eq) rs → AllByRecursion (IsRest e) rs
        → length rs ≤ most e }
{}
