//! What makes the answer to a text the only one.
ghost use Rattle.std.specs.Prelude.{◌≡◌, ℕ, List};
ghost use Rattle.pq_term.specs.declared.division.TermFault.{TermFault};
ghost use Rattle.pq_term.specs.declared.division.TermFault.TheVariants.{Memory};
ghost use Rattle.pq_grammar.specs.declared.sort.Sort.{Sort};
ghost use Rattle.pq_tree.specs.Trees.{Forest};
ghost use Rattle.pq_tree.specs.Reading.{IsForestOf, IsTextFault};

/// A text has one forest at most; it is refused for one fault at most, running out of memory aside; and a text that has a
/// forest is refused because memory runs out only.
pub fn has_one_reading()
    ensures forest { (start : Sort) (bytes : List ℕ) (f g : Forest) → IsForestOf start bytes f → IsForestOf start bytes g → f ≡ g }
    ensures fault { (start : Sort) (bytes : List ℕ) (d e : TermFault) → IsTextFault start bytes d → IsTextFault start bytes e
        → (d ≡ Memory → ⊥) → (e ≡ Memory → ⊥) → d ≡ e }
    ensures none { (start : Sort) (bytes : List ℕ) (f : Forest) (e : TermFault) → IsForestOf start bytes f → IsTextFault start bytes e → e ≡ Memory }
{}
