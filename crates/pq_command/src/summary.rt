ghost use Rattle.std.specs.Prelude.{◌≡◌, ◌≤◌, IfErr, IfOk, length};
ghost use Rattle.pq_compile.specs.Documents.{Spells, document_tree};
ghost use Rattle.pq_compile.specs.Prepared.{HasFewInstances, IsCompilable};
ghost use Rattle.pq_query.specs.Instances.{label_sum, named_trees};
ghost use Rattle.pq_command.specs.Answers.{IsOfText};
ghost use Rattle.pq_command.specs.Reading.{document_limit};
ghost use Rattle.pq_command.specs.Compiles.{HasNoInstall, IsLimitFault};
ghost use Rattle.pq_command.specs.Tasks.{IsSummarized, IsSummaryOf, counts_of};

use crate::compile::{compiled_document, document_of};
use crate::outcome::Outcome;
use pq_compile::Document;
use pq_query::{Query, label_count};
use pq_summary::{Counts, Summary};
use pq_term::Name;
use pq_topo::Topology;
use std::alloc::Global;

/// How many labels queries have together, where they are at most 1,024.
fn count_labels(queries: &[(Name, Query)], topology: &Topology) -> u32
    requires { label_sum topology.now (named_trees queries.now) ≤ 1024 }
    ensures { result ≡ label_sum topology.now (named_trees queries.now) }
{
    let mut total = 0;
    for query in queries {
        total += label_count(&query.1, topology);
    }
    total
}

/// What a summary counts of a document with this many classes of words.
fn counts_of(document: &Document, classes: u64) -> Counts
    requires { HasFewInstances (document_tree document.now) }
    ensures { result ≡ counts_of (document_tree document.now) classes }
{
    Counts {
        parts: document.parts.len() as u64,
        queries: document.queries.len() as u64,
        instances: u64::from(count_labels(&document.queries, &document.topology)),
        classes,
    }
}

/// The summary of a document, or the first limit that it goes beyond.
fn lines_of(alloc: Global, document: &Document) -> Result<Vec<u8>, Outcome>
    requires compilable { IsCompilable (document_tree document.now) }
    ensures ok { IfOk result (λ text. IsSummarized (document_tree document.now) text.items) }
    ensures err { IfErr result (λ outcome. IsLimitFault outcome (document_tree document.now)) }
    ensures of_text { IfErr result IsOfText }
{
    let (install, classes) = match compiled_document(alloc, document) {
        Ok(made) => made,
        Err(outcome) => return Err(outcome),
    };
    match Summary::of(counts_of(document, classes), &install).text(alloc) {
        Ok(text) => Ok(text),
        Err(_) => Err(Outcome::Memory),
    }
}

/// The summary of a document, or why there is none: the text's first fault, or the first limit that the document goes beyond.
pub(crate) fn summarized(alloc: Global, text: &[u8]) -> Result<Vec<u8>, Outcome>
    requires { length text.now ≤ document_limit }
    ensures ok { IfOk result (λ lines. IsSummaryOf text.now lines.items) }
    ensures err { IfErr result (λ outcome. HasNoInstall outcome text.now) }
    ensures of_text { IfErr result IsOfText }
{
    let document = match document_of(alloc, text) {
        Ok(document) => document,
        Err(outcome) => return Err(outcome),
    };
    match lines_of(alloc, &document) {
        Ok(lines) => Ok(lines),
        Err(outcome) => Err(outcome),
    }
}
