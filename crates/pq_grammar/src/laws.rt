//! What makes the answer of the parser the only one.
ghost use Rattle.std.specs.Prelude.{◌≡◌, ℕ, List};
ghost use Rattle.pq_grammar.specs.declared.sort.Sort.{Sort};
ghost use Rattle.pq_grammar.specs.declared.mark.Lexeme.{Lexeme};
ghost use Rattle.pq_grammar.specs.declared.mark.Mark.{Mark};
ghost use Rattle.pq_grammar.specs.Sentences.{IsSentence, IsFirstFault};

/// A sentence has one tree: two lists of marks that are a sentence of the start sort with the same tokens are one list.
pub fn has_one_tree()
    ensures { (start : Sort) (xs : List Lexeme) (ms ns : List Mark) → IsSentence start xs ms → IsSentence start xs ns → ms ≡ ns }
{}

/// Tokens have one first fault at most, and none where they are a sentence.
pub fn has_one_fault()
    ensures one { (start : Sort) (xs : List Lexeme) (i j : ℕ) → IsFirstFault start xs i → IsFirstFault start xs j → i ≡ j }
    ensures none { (start : Sort) (xs : List Lexeme) (i : ℕ) (ms : List Mark) → IsFirstFault start xs i → IsSentence start xs ms → ⊥ }
{}
