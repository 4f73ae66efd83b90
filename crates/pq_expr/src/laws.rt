//! What is true of the words of all expressions.
ghost use Rattle.std.specs.Prelude.{◌≡◌, ◌≤◌, ℕ, true};
ghost use Rattle.pq_expr.specs.Expr.{ExprTree, bound};
ghost use Rattle.pq_expr.specs.Word.{AgreeBelow, Word};
ghost use Rattle.pq_expr.specs.Language.{Language, holds, in_pieces, repeated};

/// A word of any number of pieces is a word of the repetition: no more pieces are needed than the word has half steps.
#[tactic(auto, using(crate::proofs::Cuts::any_number))]
pub fn repetition_is_any_number_of_pieces()
    ensures { (P : Language) (n : ℕ) (w : Word) → in_pieces P n w ≡ true → repeated P w ≡ true }
{}

/// An expression looks at no truth value but those of the predicates that it names.
#[tactic(auto, using(crate::proofs::Agreement::holds_alike))]
pub fn truths_below_the_bound_decide()
    ensures { (e : ExprTree) (n : ℕ) → bound e ≤ n → (v w : Word) → AgreeBelow n v w → holds e v ≡ holds e w }
{}
