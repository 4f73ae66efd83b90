//! The document of a text.
ghost use Rattle.std.specs.Prelude.{IfOk, IfErr};
ghost use Rattle.pq_tree.specs.Trees.{trees};
ghost use Rattle.pq_topo.specs.Naming.{IsAnswer};
ghost use Rattle.pq_compile.specs.Documents.{IsDocumentFault, Spells, document_of, document_tree};

use crate::document::Document;
use crate::fault::DocumentFault;
use crate::parts::read_parts;
use crate::queries::read_queries;
use bumpalo::Bump;
use pq_term::TermFault;
use pq_topo::{NameFault, Topology};
use pq_tree::{Term, read_terms};
use std::alloc::Global;

/// The document of the statements.
#[tactic(auto, using(pq_topo::proofs::Passed::passed, pq_topo::proofs::Passed::followed))]
fn resolve_document(alloc: Global, terms: &[Term<'_>], bytes: &[u8]) -> Result<Document, NameFault>
    ensures { IsAnswer document_tree result (document_of bytes.now (trees terms.now)) }
{
    let topology = Topology::resolve(alloc, terms, bytes)?;
    let parts = read_parts(alloc, terms, bytes, &topology)?;
    let queries = read_queries(alloc, terms, bytes, &topology)?;
    Ok(Document {
        topology,
        parts,
        queries,
    })
}

/// The document that a text spells: the whole text is divided into tokens, these are read as a sentence, and the names and
/// numbers of its statements are looked up.
pub fn read_document(alloc: Global, bytes: &[u8]) -> Result<Document, DocumentFault>
    ensures ok { IfOk result (λ document. Spells bytes.now (document_tree document)) }
    ensures err { IfErr result (IsDocumentFault bytes.now) }
{
    let bump = Bump::new(alloc);
    let terms = match read_terms(alloc, &bump, bytes) {
        Ok(terms) => terms,
        Err(TermFault::Lex { at }) => return Err(DocumentFault::Lex { at }),
        Err(TermFault::Syntax { at }) => return Err(DocumentFault::Syntax { at }),
        Err(TermFault::Memory) => return Err(DocumentFault::Memory),
    };
    match resolve_document(alloc, terms, bytes) {
        Ok(document) => Ok(document),
        Err(NameFault::Name { at, kind }) => Err(DocumentFault::Name { at, kind }),
        Err(NameFault::Memory) => Err(DocumentFault::Memory),
    }
}
