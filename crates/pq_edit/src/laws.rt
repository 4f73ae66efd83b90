//! What makes the answer to a text, for a document, the only one.
ghost use Rattle.std.specs.Prelude.{◌≡◌, ℕ, List};
ghost use Rattle.pq_compile.specs.Documents.{DocumentTree};
ghost use Rattle.pq_compile.specs.declared.fault.DocumentFault.{DocumentFault};
ghost use Rattle.pq_compile.specs.declared.fault.DocumentFault.TheVariants.{Memory};
ghost use Rattle.pq_edit.specs.Edits.{EditTree};
ghost use Rattle.pq_edit.specs.Reading.{IsEditFault, SpellsEdit};

/// A text spells one edit of a document at most; it is refused for one fault at most, running out of memory aside; and a text that
/// spells an edit is refused because memory runs out only. It does nothing when it runs.
pub fn has_one_edit()
    ensures edit { (bytes : List ℕ) (d : DocumentTree) (e f : EditTree) → SpellsEdit bytes d e → SpellsEdit bytes d f → e ≡ f }
    ensures fault { (bytes : List ℕ) (d : DocumentTree) (f g : DocumentFault) → IsEditFault bytes d f → IsEditFault bytes d g
        → (f ≡ Memory → ⊥) → (g ≡ Memory → ⊥) → f ≡ g }
    ensures none { (bytes : List ℕ) (d : DocumentTree) (e : EditTree) (f : DocumentFault) → SpellsEdit bytes d e → IsEditFault bytes d f → f ≡ Memory }
{}
