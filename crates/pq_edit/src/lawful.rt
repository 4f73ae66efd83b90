//! What is read is lawful, and so is the document after it.
ghost use Rattle.std.specs.Prelude.{◌≤◌, ℕ, List, length};
ghost use Rattle.pq_compile.specs.Documents.{DocumentTree};
ghost use Rattle.pq_compile.specs.Lawful.{IsLawfulDocument};
ghost use Rattle.pq_compile.specs.Prepared.{IsCompilable};
ghost use Rattle.pq_edit.specs.Edits.{EditTree, IsLawfulEdit, edited};
ghost use Rattle.pq_edit.specs.Reading.{SpellsEdit};

use pq_compile::{policies_that_are_read_are_lawful, queries_that_are_read_are_lawful};

/// An edit that a text of at most 524,288 bytes spells of a lawful document may be made of it: what it puts is lawful, there
/// is room for it, and what it removes is there.
pub fn edits_that_are_read_are_lawful()
    ensures { (bytes : List ℕ) (d : DocumentTree) (e : EditTree) → IsLawfulDocument d → SpellsEdit bytes d e → length bytes ≤ 524288 → IsLawfulEdit d e }
{
    policies_that_are_read_are_lawful();
    queries_that_are_read_are_lawful();
}

/// A document that may be compiled may be so after a lawful edit.
pub fn edited_documents_are_lawful()
    ensures { (d : DocumentTree) (e : EditTree) → IsCompilable d → IsLawfulEdit d e → IsCompilable (edited d e) }
{}
