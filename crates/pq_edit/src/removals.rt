//! What an edit removes.
ghost use Rattle.std.specs.Prelude.{◌≡◌};
ghost use Rattle.pq_tree.specs.Texts.{text_in};
ghost use Rattle.pq_tree.specs.Trees.{trees};
ghost use Rattle.pq_topo.specs.Naming.{IsAnswer};
ghost use Rattle.pq_topo.specs.declared.fault.NameKind.TheVariants.{UnknownPart, UnknownQuery};
ghost use Rattle.pq_pred.specs.Values.{name_in};
ghost use Rattle.pq_compile.specs.Documents.{document_tree};
ghost use Rattle.pq_compile.specs.Lawful.{names_in};
ghost use Rattle.pq_edit.specs.Edits.{edit_tree};
ghost use Rattle.pq_edit.specs.Reading.{removal_at, removal_of, remove_part, remove_query, removed_name, removed_of};

use crate::edit::Edit;
use crate::names::removed_name;
use pq_compile::Document;
use pq_grammar::{Class, is_class};
use pq_pred::faulty;
use pq_term::{Name, Token};
use pq_topo::{NameFault, NameKind};
use pq_tree::{Term, class_in_text};

/// The name of a part that is removed.
fn removed_part(token: &Token, bytes: &[u8], document: &Document) -> Result<Name, NameFault>
    ensures { IsAnswer (λ n. n) result (removed_name UnknownPart (names_in (document_tree document.now).parts) token.now
        (name_in (text_in bytes.now token.now))) }
{
    removed_name(NameKind::UnknownPart, &document.parts, token, bytes)
}

/// The name of a query that is removed.
fn removed_query(token: &Token, bytes: &[u8], document: &Document) -> Result<Name, NameFault>
    ensures { IsAnswer (λ n. n) result (removed_name UnknownQuery (names_in (document_tree document.now).queries) token.now
        (name_in (text_in bytes.now token.now))) }
{
    removed_name(NameKind::UnknownQuery, &document.queries, token, bytes)
}

/// The name after `remove part`.
#[tactic(auto, using(crate::proofs::Statements::removed_one))]
fn part_name(
    keyword: &Token,
    children: &[Term<'_>],
    bytes: &[u8],
    document: &Document,
) -> Result<Name, NameFault>
    ensures { IsAnswer (λ n. n) result (removed_of bytes.now UnknownPart (names_in (document_tree document.now).parts) keyword.now (trees children.now)) }
{
    match children {
        [name, ..] => removed_part(&name.head, bytes, document),
        _ => Err(faulty(keyword, NameKind::BadValue)),
    }
}

/// The name after `remove query`.
#[tactic(auto, using(crate::proofs::Statements::removed_one))]
fn query_name(
    keyword: &Token,
    children: &[Term<'_>],
    bytes: &[u8],
    document: &Document,
) -> Result<Name, NameFault>
    ensures { IsAnswer (λ n. n) result (removed_of bytes.now UnknownQuery (names_in (document_tree document.now).queries) keyword.now (trees children.now)) }
{
    match children {
        [name, ..] => removed_query(&name.head, bytes, document),
        _ => Err(faulty(keyword, NameKind::BadValue)),
    }
}

/// The edit that removes the part of this name.
#[tactic(auto, using(pq_topo::proofs::Passed::passed, pq_topo::proofs::Passed::followed))]
fn remove_part(
    keyword: &Token,
    children: &[Term<'_>],
    bytes: &[u8],
    document: &Document,
) -> Result<Edit, NameFault>
    ensures { IsAnswer edit_tree result (remove_part (document_tree document.now) bytes.now keyword.now (trees children.now)) }
{
    let name = part_name(keyword, children, bytes, document)?;
    Ok(Edit::RemovePart(name))
}

/// The edit that removes the query of this name.
#[tactic(auto, using(pq_topo::proofs::Passed::passed, pq_topo::proofs::Passed::followed))]
fn remove_query(
    keyword: &Token,
    children: &[Term<'_>],
    bytes: &[u8],
    document: &Document,
) -> Result<Edit, NameFault>
    ensures { IsAnswer edit_tree result (remove_query (document_tree document.now) bytes.now keyword.now (trees children.now)) }
{
    let name = query_name(keyword, children, bytes, document)?;
    Ok(Edit::RemoveQuery(name))
}

/// The edit that removes what is after `remove`: the keyword of its sort, and its name.
fn removal_at(
    keyword: &Token,
    children: &[Term<'_>],
    bytes: &[u8],
    document: &Document,
) -> Result<Edit, NameFault>
    ensures { IsAnswer edit_tree result (removal_at (document_tree document.now) bytes.now keyword.now (trees children.now)) }
{
    let class = class_in_text(bytes, keyword);
    if is_class(class, Class::PartWord) {
        return remove_part(keyword, children, bytes, document);
    }
    if is_class(class, Class::QueryWord) {
        return remove_query(keyword, children, bytes, document);
    }
    Err(faulty(keyword, NameKind::BadValue))
}

/// The edit of a statement that begins with `remove`.
#[tactic(auto, using(crate::proofs::Statements::removal_one))]
pub(crate) fn removal_of(
    remove: &Token,
    children: &[Term<'_>],
    bytes: &[u8],
    document: &Document,
) -> Result<Edit, NameFault>
    ensures { IsAnswer edit_tree result (removal_of (document_tree document.now) bytes.now remove.now (trees children.now)) }
{
    match children {
        [removed, ..] => removal_at(&removed.head, removed.children, bytes, document),
        _ => Err(faulty(remove, NameKind::BadValue)),
    }
}
