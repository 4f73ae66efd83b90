//! The edit of a text.
ghost use Rattle.std.specs.Prelude.{◌≡◌, ◌∷◌, [], IfOk, IfErr};
ghost use Rattle.pq_tree.specs.Trees.{forest, tree, trees};
ghost use Rattle.pq_topo.specs.Naming.{IsAnswer};
ghost use Rattle.pq_compile.specs.Documents.{document_tree};
ghost use Rattle.pq_edit.specs.Edits.{edit_tree};
ghost use Rattle.pq_edit.specs.Reading.{IsEditFault, SpellsEdit, edit_of, statement_of};

use crate::edit::Edit;
use crate::puts::{put_part, put_query};
use crate::removals::removal_of;
use bumpalo::Bump;
use pq_compile::{Document, DocumentFault};
use pq_grammar::{Class, is_class};
use pq_pred::faulty;
use pq_term::{TermFault, Token};
use pq_topo::{NameFault, NameKind};
use pq_tree::{Term, class_in_text, read_edit};
use std::alloc::Global;

/// The edit of a statement, by the keyword that begins it.
fn statement_of(
    alloc: Global,
    keyword: &Token,
    children: &[Term<'_>],
    bytes: &[u8],
    document: &Document,
) -> Result<Edit, NameFault>
    ensures { IsAnswer edit_tree result (statement_of (document_tree document.now) bytes.now keyword.now (trees children.now)) }
{
    let class = class_in_text(bytes, keyword);
    if is_class(class, Class::PartWord) {
        return put_part(alloc, keyword, children, bytes, document);
    }
    if is_class(class, Class::QueryWord) {
        return put_query(alloc, keyword, children, bytes, document);
    }
    if is_class(class, Class::RemoveWord) {
        return removal_of(keyword, children, bytes, document);
    }
    Err(faulty(keyword, NameKind::BadValue))
}

/// The edit of the one statement of a text.
fn resolve_edit(
    alloc: Global,
    term: &Term<'_>,
    bytes: &[u8],
    document: &Document,
) -> Result<Edit, NameFault>
    ensures { IsAnswer edit_tree result (edit_of (document_tree document.now) bytes.now (forest (tree term.now ∷ []))) }
{
    statement_of(alloc, &term.head, term.children, bytes, document)
}

/// The edit that a text spells of a document: the whole text is divided into tokens, these are read as the sentence of an
/// edit, and its names and numbers are looked up in the document.
pub fn read_edit_text(
    alloc: Global,
    bytes: &[u8],
    document: &Document,
) -> Result<Edit, DocumentFault>
    ensures ok { IfOk result (λ edit. SpellsEdit bytes.now (document_tree document.now) (edit_tree edit)) }
    ensures err { IfErr result (IsEditFault bytes.now (document_tree document.now)) }
{
    let bump = Bump::new(alloc);
    let term = match read_edit(alloc, &bump, bytes) {
        Ok(term) => term,
        Err(TermFault::Lex { at }) => return Err(DocumentFault::Lex { at }),
        Err(TermFault::Syntax { at }) => return Err(DocumentFault::Syntax { at }),
        Err(TermFault::Memory) => return Err(DocumentFault::Memory),
    };
    match resolve_edit(alloc, term, bytes, document) {
        Ok(edit) => Ok(edit),
        Err(NameFault::Name { at, kind }) => Err(DocumentFault::Name { at, kind }),
        Err(NameFault::Memory) => Err(DocumentFault::Memory),
    }
}
