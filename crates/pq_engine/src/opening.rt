//! What an engine keeps of a document that it is opened with.
ghost use Rattle.std.specs.Prelude.{◌≡◌, ◌<◌, IfErr, IfOk};
ghost use Rattle.pq_compile.specs.Compiled.{IsCompileFault};
ghost use Rattle.pq_compile.specs.Documents.{document_tree};
ghost use Rattle.pq_compile.specs.Prepared.{HasFewValues, IsClassified, IsCompilable};
ghost use Rattle.pq_engine.specs.Engine.{IsEngine, engine_of};

use crate::diagrams::parts_sum;
use crate::kept::Kept;
use pq_classes::QueryClasses;
use pq_compile::{CompileFault, Document, classified, few_values, installed};
use pq_io::Steps;
use pq_store::Store;
use std::alloc::Global;
use std::sync::ledger::{Blank, Ledger};

/// What is kept of a document, or the first limit that it goes beyond.
pub(crate) fn kept_of<L: Ledger>(
    alloc: Global,
    document: &Document,
    blank: Blank,
) -> Result<Kept, CompileFault>
    requires name { blank.name ≡ L.name }
    requires parts { blank.parts ≡ L.parts }
    requires some { 0 < blank.parts }
    requires compilable { IsCompilable (document_tree document.now) }
    ensures kept { IfOk result (λ kept. IsEngine (engine_of (document_tree document.now) kept)) }
    ensures cause { IfErr result (IsCompileFault (document_tree document.now)) }
{
    let (book, share) = blank.open();
    let mut steps: Steps<L> = Steps::start(book, share);
    match few_values(alloc, document) {
        Ok(()) => {}
        Err(fault) => return Err(CompileFault::of_prepare(fault)),
    }
    match classified(alloc, document, &mut steps) {
        Ok(told) => first_kept(alloc, document, told, &mut steps),
        Err(fault) => Err(CompileFault::of_prepare(fault)),
    }
}

/// What is kept of a document of whose queries this is told.
fn first_kept<L: Ledger>(
    alloc: Global,
    document: &Document,
    told: QueryClasses,
    steps: &mut Steps<L>,
) -> Result<Kept, CompileFault>
    requires compilable { IsCompilable (document_tree document.now) }
    requires values { HasFewValues (document_tree document.now) }
    requires told { IsClassified (document_tree document.now) told }
    ensures kept { IfOk result (λ kept. IsEngine (engine_of (document_tree document.now) kept)) }
    ensures cause { IfErr result (IsCompileFault (document_tree document.now)) }
{
    let mut forward = Store::new(alloc);
    let sum = match parts_sum(document, &mut forward, steps) {
        Ok(sum) => sum,
        Err(_) => return Err(CompileFault::Memory),
    };
    let install = match installed(alloc, document, &forward, sum.total(), &told) {
        Ok(install) => install,
        Err(fault) => return Err(CompileFault::of_rules(fault)),
    };
    match sum.copied(&forward) {
        Ok((forward, sum)) => Ok(Kept {
            forward,
            sum,
            told,
            install,
        }),
        Err(_) => Err(CompileFault::Memory),
    }
}
