//! What an edit puts.
ghost use Rattle.std.specs.Prelude.{◌≡◌};
ghost use Rattle.pq_tree.specs.Texts.{text_in};
ghost use Rattle.pq_tree.specs.Trees.{tree, trees};
ghost use Rattle.pq_topo.specs.Naming.{IsAnswer};
ghost use Rattle.pq_pred.specs.Values.{name_in};
ghost use Rattle.pq_policy.specs.Resolved.{policy_of};
ghost use Rattle.pq_query.specs.Resolved.{query_of};
ghost use Rattle.pq_compile.specs.Documents.{document_tree, named_query_tree, part_tree};
ghost use Rattle.pq_compile.specs.Lawful.{names_in};
ghost use Rattle.pq_edit.specs.Edits.{edit_tree};
ghost use Rattle.pq_edit.specs.Reading.{keyword_at, put_of, put_part, put_query, put_under};

use crate::edit::Edit;
use crate::names::keyword_at;
use pq_compile::Document;
use pq_policy::{Policy, resolve_policy};
use pq_pred::faulty;
use pq_query::{Query, resolve_query};
use pq_term::{Name, Token};
use pq_topo::{NameFault, NameKind};
use pq_tree::{Term, text_in};
use std::alloc::Global;

/// The most parts of a document.
const MOST_PARTS: usize = 1024;

/// The most queries of a document.
const MOST_QUERIES: usize = 256;

/// The keyword of a statement that puts a part of this name.
fn part_keyword(keyword: &Token, name: &Name, document: &Document) -> Result<Token, NameFault>
    ensures { IsAnswer (λ t. t) result (keyword_at 1024 (names_in (document_tree document.now).parts) keyword.now name.now) }
{
    keyword_at(MOST_PARTS, &document.parts, keyword, name)
}

/// The keyword of a statement that puts a query of this name.
fn query_keyword(keyword: &Token, name: &Name, document: &Document) -> Result<Token, NameFault>
    ensures { IsAnswer (λ t. t) result (keyword_at 256 (names_in (document_tree document.now).queries) keyword.now name.now) }
{
    keyword_at(MOST_QUERIES, &document.queries, keyword, name)
}

/// The part of this name and body.
#[tactic(auto, using(pq_topo::proofs::Passed::passed, pq_topo::proofs::Passed::followed))]
fn part_under(
    alloc: Global,
    keyword: &Token,
    token: &Token,
    body: &Term<'_>,
    bytes: &[u8],
    document: &Document,
) -> Result<(Name, Policy), NameFault>
    ensures { IsAnswer part_tree result (put_under 1024 (policy_of document.now.topology bytes.now)
        (names_in (document_tree document.now).parts) keyword.now token.now
        (tree body.now) (name_in (text_in bytes.now token.now))) }
{
    let Some(name) = Name::of(text_in(bytes, token)) else {
        return Err(faulty(token, NameKind::BadValue));
    };
    part_keyword(keyword, &name, document)?;
    let policy = resolve_policy(alloc, body, bytes, &document.topology)?;
    Ok((name, policy))
}

/// The query of this name and body.
#[tactic(auto, using(pq_topo::proofs::Passed::passed, pq_topo::proofs::Passed::followed))]
fn query_under(
    alloc: Global,
    keyword: &Token,
    token: &Token,
    body: &Term<'_>,
    bytes: &[u8],
    document: &Document,
) -> Result<(Name, Query), NameFault>
    ensures { IsAnswer named_query_tree result
        (put_under 256 (query_of document.now.topology bytes.now) (names_in (document_tree document.now).queries) keyword.now token.now
        (tree body.now) (name_in (text_in bytes.now token.now))) }
{
    let Some(name) = Name::of(text_in(bytes, token)) else {
        return Err(faulty(token, NameKind::BadValue));
    };
    query_keyword(keyword, &name, document)?;
    let query = resolve_query(alloc, body, bytes, &document.topology)?;
    Ok((name, query))
}

/// The part of a statement.
#[tactic(auto, using(crate::proofs::Statements::put_two, crate::proofs::Statements::put_few))]
fn part_of(
    alloc: Global,
    keyword: &Token,
    children: &[Term<'_>],
    bytes: &[u8],
    document: &Document,
) -> Result<(Name, Policy), NameFault>
    ensures { IsAnswer part_tree result (put_of bytes.now 1024 (policy_of document.now.topology bytes.now)
        (names_in (document_tree document.now).parts) keyword.now
        (trees children.now)) }
{
    match children {
        [name, body, ..] => part_under(alloc, keyword, &name.head, body, bytes, document),
        _ => Err(faulty(keyword, NameKind::BadValue)),
    }
}

/// The query of a statement.
#[tactic(auto, using(crate::proofs::Statements::put_two, crate::proofs::Statements::put_few))]
fn query_of(
    alloc: Global,
    keyword: &Token,
    children: &[Term<'_>],
    bytes: &[u8],
    document: &Document,
) -> Result<(Name, Query), NameFault>
    ensures { IsAnswer named_query_tree result
        (put_of bytes.now 256 (query_of document.now.topology bytes.now) (names_in (document_tree document.now).queries) keyword.now
        (trees children.now)) }
{
    match children {
        [name, body, ..] => query_under(alloc, keyword, &name.head, body, bytes, document),
        _ => Err(faulty(keyword, NameKind::BadValue)),
    }
}

/// The edit that puts the part of a statement.
#[tactic(auto, using(pq_topo::proofs::Passed::passed, pq_topo::proofs::Passed::followed))]
pub(crate) fn put_part(
    alloc: Global,
    keyword: &Token,
    children: &[Term<'_>],
    bytes: &[u8],
    document: &Document,
) -> Result<Edit, NameFault>
    ensures { IsAnswer edit_tree result (put_part (document_tree document.now) bytes.now keyword.now (trees children.now)) }
{
    let (name, policy) = part_of(alloc, keyword, children, bytes, document)?;
    Ok(Edit::PutPart(name, policy))
}

/// The edit that puts the query of a statement.
#[tactic(auto, using(pq_topo::proofs::Passed::passed, pq_topo::proofs::Passed::followed))]
pub(crate) fn put_query(
    alloc: Global,
    keyword: &Token,
    children: &[Term<'_>],
    bytes: &[u8],
    document: &Document,
) -> Result<Edit, NameFault>
    ensures { IsAnswer edit_tree result (put_query (document_tree document.now) bytes.now keyword.now (trees children.now)) }
{
    let (name, query) = query_of(alloc, keyword, children, bytes, document)?;
    Ok(Edit::PutQuery(name, query))
}
