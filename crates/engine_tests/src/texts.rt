//! Documents and edits that texts spell.
ghost use Rattle.std.specs.Prelude.{◌≤◌, length, IfOk};
ghost use Rattle.pq_compile.specs.Documents.{document_tree};
ghost use Rattle.pq_compile.specs.Prepared.{IsCompilable};
ghost use Rattle.pq_edit.specs.Edits.{IsLawfulEdit, edit_tree};

use pq_compile::{
    Document, DocumentFault, documents_that_are_read_are_lawful,
    queries_that_are_read_have_few_atoms, read_document,
};
use pq_edit::{Edit, edits_that_are_read_are_lawful, read_edit_text};
use std::alloc::Global;

/// The document of a text of at most 524,288 bytes, which may be compiled.
pub(crate) fn document_of(alloc: Global, text: &[u8]) -> Result<Document, DocumentFault>
    requires { length text.now ≤ 524288 }
    ensures { IfOk result (λ document. IsCompilable (document_tree document)) }
{
    documents_that_are_read_are_lawful();
    queries_that_are_read_have_few_atoms();
    match read_document(alloc, text) {
        Ok(document) => Ok(document),
        Err(fault) => Err(fault),
    }
}

/// The edit of a text of at most 524,288 bytes, which may be made of the document.
pub(crate) fn edit_of(
    alloc: Global,
    text: &[u8],
    document: &Document,
) -> Result<Edit, DocumentFault>
    requires short { length text.now ≤ 524288 }
    requires compilable { IsCompilable (document_tree document.now) }
    ensures { IfOk result (λ edit. IsLawfulEdit (document_tree document.now) (edit_tree edit)) }
{
    edits_that_are_read_are_lawful();
    match read_edit_text(alloc, text, document) {
        Ok(edit) => Ok(edit),
        Err(fault) => Err(fault),
    }
}
