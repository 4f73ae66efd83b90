//! The queries of a document.
ghost use Rattle.std.specs.Prelude.{◌≡◌, ◌++◌, ◌∷◌, [], map, IfOk};
ghost use Rattle.pq_tree.specs.Trees.{tree, trees};
ghost use Rattle.pq_topo.specs.Naming.{IsAnswer};
ghost use Rattle.pq_query.specs.Resolved.{query_of};
ghost use Rattle.pq_compile.specs.Names.{named_from, named_of};
ghost use Rattle.pq_compile.specs.Documents.{named_query_tree, queries_of};

use crate::names::{keyword_at, name_at};
use indexmap::IndexSet;
use pq_grammar::{Class, is_class};
use pq_pred::faulty;
use pq_query::{Query, resolve_query};
use pq_term::{Name, Token};
use pq_topo::{NameFault, NameKind, Topology};
use pq_tree::{Term, class_in_text};
use std::alloc::Global;

/// The most queries of a document.
const MOST_QUERIES: usize = 256;

/// The query of this name and body; its name joins those of earlier queries.
#[tactic(auto, using(pq_topo::proofs::Passed::passed, pq_topo::proofs::Passed::followed))]
fn query_from(
    alloc: Global,
    keyword: &Token,
    name: &Token,
    body: &Term<'_>,
    bytes: &[u8],
    topology: &Topology,
    names: &mut IndexSet<Name>,
) -> Result<(Name, Query), NameFault>
    ensures query { IsAnswer named_query_tree result
        (named_from bytes.now 256 (query_of topology.now bytes.now) names.old.keys keyword.now name.now (tree body.now)) }
    ensures kept { IfOk result (λ q. names.new.keys ≡ names.old.keys ++ q.0 ∷ []) }
{
    keyword_at(MOST_QUERIES, names.len(), keyword)?;
    let name = name_at(bytes, names, name)?;
    let query = resolve_query(alloc, body, bytes, topology)?;
    Ok((name, query))
}

/// The query of a statement; its name joins those of earlier queries.
#[tactic(auto, using(crate::proofs::Statements::named_two, crate::proofs::Statements::named_few))]
fn query_of(
    alloc: Global,
    keyword: &Token,
    children: &[Term<'_>],
    bytes: &[u8],
    topology: &Topology,
    names: &mut IndexSet<Name>,
) -> Result<(Name, Query), NameFault>
    ensures query { IsAnswer named_query_tree result
        (named_of bytes.now 256 (query_of topology.now bytes.now) names.old.keys keyword.now (trees children.now)) }
    ensures kept { IfOk result (λ q. names.new.keys ≡ names.old.keys ++ q.0 ∷ []) }
{
    match children {
        [name, body, ..] => query_from(alloc, keyword, &name.head, body, bytes, topology, names),
        _ => Err(faulty(keyword, NameKind::BadValue)),
    }
}

/// The queries of the statements, in text order.
#[tactic(auto, using(crate::proofs::Statements::one_is_read, crate::proofs::Statements::one_is_refused, crate::proofs::Statements::one_name_more, crate::proofs::Statements::none_is_read))]
pub(crate) fn read_queries(
    alloc: Global,
    terms: &[Term<'_>],
    bytes: &[u8],
    topology: &Topology,
) -> Result<Vec<(Name, Query)>, NameFault>
    ensures { IsAnswer (λ queries. map named_query_tree queries.items) result (queries_of topology.now bytes.now (trees terms.now)) }
{
    let mut names = IndexSet::new(alloc);
    let mut queries = Vec::new(alloc);
    for term in terms {
        if is_class(class_in_text(bytes, &term.head), Class::QueryWord) {
            match query_of(
                alloc,
                &term.head,
                term.children,
                bytes,
                topology,
                &mut names,
            ) {
                Ok(query) => match queries.push(query) {
                    Ok(()) => {}
                    Err(_) => return Err(NameFault::Memory),
                },
                Err(fault) => return Err(fault),
            }
        }
    }
    Ok(queries)
}
