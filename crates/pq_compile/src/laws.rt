//! What makes the answer to a text, and to a document, the only one.
ghost use Rattle.std.specs.Prelude.{◌≡◌, ℕ, List};
ghost use Rattle.pq_compile.specs.declared.fault.DocumentFault.{DocumentFault};
ghost use Rattle.pq_compile.specs.declared.fault.DocumentFault.TheVariants.{Memory};
ghost use Rattle.pq_compile.specs.Documents.{DocumentTree, IsDocumentFault, Spells};
ghost use Rattle.pq_compile.specs.Laws.{HasNoCompileFault, HasNoPrepareFault, HasOneCompileFault, HasOnePrepareFault};

/// A text spells one document at most; it is refused for one fault at most, running out of memory aside; and a text that spells
/// a document is refused because memory runs out only. It does nothing when it runs.
pub fn has_one_document()
    ensures document { (bytes : List ℕ) (d e : DocumentTree) → Spells bytes d → Spells bytes e → d ≡ e }
    ensures fault { (bytes : List ℕ) (f g : DocumentFault) → IsDocumentFault bytes f → IsDocumentFault bytes g
        → (f ≡ Memory → ⊥) → (g ≡ Memory → ⊥) → f ≡ g }
    ensures none { (bytes : List ℕ) (d : DocumentTree) (f : DocumentFault) → Spells bytes d → IsDocumentFault bytes f → f ≡ Memory }
{}

/// A document over a lawful topology is refused by `compile`, and by `prepare`, for one limit at most, running out of memory aside; and
/// one that is within the limits is refused because memory runs out only. It does nothing when it runs.
pub fn has_one_compile_fault()
    ensures prepare_fault { HasOnePrepareFault }
    ensures no_prepare_fault { HasNoPrepareFault }
    ensures compile_fault { HasOneCompileFault }
    ensures no_compile_fault { HasNoCompileFault }
{}
