ghost use Rattle.std.specs.Prelude.{◌≡◌, ◌<◌, ◌≤◌, IfErr, IfOk, OnOk, length};
ghost use Rattle.pq_compile.specs.Compiled.{IsCompileFault, IsInstalled};
ghost use Rattle.pq_compile.specs.Documents.{Spells, document_tree};
ghost use Rattle.pq_compile.specs.Prepared.{HasFewInstances, IsCompilable, languages_in};
ghost use Rattle.pq_model.specs.Classes.{HasClasses};
ghost use Rattle.pq_model.specs.Install.{IsLawfulInstall, spelling};
ghost use Rattle.pq_command.specs.Answers.{IsOfText};
ghost use Rattle.pq_command.specs.Reading.{document_limit};
ghost use Rattle.pq_command.specs.Compiles.{HasNoInstall, IsInstallOf, IsLimitFault, IsTextFault, IsWrittenFor, compile_outcome};

use crate::outcome::Outcome;
use pq_compile::{
    CompileFault, Document, DocumentFault, compile_classes, documents_that_are_read_are_lawful,
    queries_that_are_read_have_few_atoms, read_document,
};
use pq_install::{Install, write_install};
use pq_io::Steps;
use std::alloc::{AllocError, Global};
use std::marker::Brand;
use std::sync::ledger::{Blank, Ledger};

/// The document of a text of at most 524,288 bytes, which may be compiled, or the text's first fault.
pub(crate) fn document_of(alloc: Global, text: &[u8]) -> Result<Document, Outcome>
    requires { length text.now ≤ document_limit }
    ensures spells { IfOk result (λ d. Spells text.now (document_tree d)) }
    ensures compilable { IfOk result (λ d. IsCompilable (document_tree d)) }
    ensures err { IfErr result (λ outcome. IsTextFault outcome text.now) }
    ensures of_text { IfErr result IsOfText }
{
    documents_that_are_read_are_lawful();
    queries_that_are_read_have_few_atoms();
    match read_document(alloc, text) {
        Ok(document) => Ok(document),
        Err(DocumentFault::Lex { at }) => Err(Outcome::Lex { at }),
        Err(DocumentFault::Syntax { at }) => Err(Outcome::Syntax { at }),
        Err(DocumentFault::Name { at, kind }) => Err(Outcome::Name { at, kind }),
        Err(DocumentFault::Memory) => Err(Outcome::Memory),
    }
}

/// The outcome of a limit that a document is beyond.
pub(crate) fn outcome_of(fault: CompileFault) -> Outcome
    ensures outcome { result ≡ compile_outcome fault }
    ensures of_text { IsOfText result }
{
    match fault {
        CompileFault::ValuesFull { field, count } => Outcome::ValuesFull { field, count },
        CompileFault::InstancesFull { count } => Outcome::InstancesFull { count },
        CompileFault::TagWidth { classes } => Outcome::TagWidth { classes },
        CompileFault::TableFull {
            switch,
            table,
            entries,
        } => Outcome::TableFull {
            switch,
            table,
            entries,
        },
        CompileFault::GroupFull { switch, copies } => Outcome::GroupFull { switch, copies },
        CompileFault::Memory => Outcome::Memory,
    }
}

/// The install of a document and the number of its classes, or the first limit that it goes beyond.
fn compiled<L: Ledger>(
    alloc: Global,
    document: &Document,
    blank: Blank,
) -> Result<(Install, u64), CompileFault>
    requires name { blank.name ≡ L.name }
    requires parts { blank.parts ≡ L.parts }
    requires some { 0 < blank.parts }
    requires compilable { IsCompilable (document_tree document.now) }
    ensures installed { IfOk result (λ made. IsInstalled (document_tree document.now) made.0) }
    ensures classes { IfOk result (λ made. HasClasses (languages_in (document_tree document.now)) made.1) }
    ensures instances { OnOk result (HasFewInstances (document_tree document.now)) }
    ensures cause { IfErr result (IsCompileFault (document_tree document.now)) }
{
    let (book, share) = blank.open();
    let mut steps: Steps<L> = Steps::start(book, share);
    match compile_classes(alloc, document, &mut steps) {
        Ok(made) => Ok(made),
        Err(fault) => Err(fault),
    }
}

/// The install of a document and the number of its classes, or the first limit that it goes beyond, as an outcome.
pub(crate) fn compiled_document(
    alloc: Global,
    document: &Document,
) -> Result<(Install, u64), Outcome>
    requires compilable { IsCompilable (document_tree document.now) }
    ensures installed { IfOk result (λ made. IsInstalled (document_tree document.now) made.0) }
    ensures classes { IfOk result (λ made. HasClasses (languages_in (document_tree document.now)) made.1) }
    ensures instances { OnOk result (HasFewInstances (document_tree document.now)) }
    ensures err { IfErr result (λ outcome. IsLimitFault outcome (document_tree document.now)) }
    ensures of_text { IfErr result IsOfText }
{
    match compiled::<Brand>(alloc, document, Blank::new(1)) {
        Ok(made) => Ok(made),
        Err(fault) => Err(outcome_of(fault)),
    }
}

/// The bytes of an install.
pub(crate) fn spelled(alloc: Global, install: &Install) -> Result<Vec<u8>, AllocError>
    requires { IsLawfulInstall install.now }
    ensures { IfOk result (λ bytes. bytes.items ≡ spelling install.now) }
{
    let mut bytes = Vec::new(alloc);
    write_install(alloc, install, &mut bytes)?;
    Ok(bytes)
}

/// The bytes of the install of a document, or the first limit that it goes beyond.
fn written(alloc: Global, document: &Document) -> Result<Vec<u8>, Outcome>
    requires compilable { IsCompilable (document_tree document.now) }
    ensures ok { IfOk result (λ bytes. IsWrittenFor (document_tree document.now) bytes.items) }
    ensures err { IfErr result (λ outcome. IsLimitFault outcome (document_tree document.now)) }
    ensures of_text { IfErr result IsOfText }
{
    let (install, _) = match compiled_document(alloc, document) {
        Ok(made) => made,
        Err(outcome) => return Err(outcome),
    };
    match spelled(alloc, &install) {
        Ok(bytes) => Ok(bytes),
        Err(_) => Err(Outcome::Memory),
    }
}

/// The bytes of the install of a document, or why there is none: the text's first fault, or the first limit that the document
/// goes beyond.
pub(crate) fn install_of(alloc: Global, text: &[u8]) -> Result<Vec<u8>, Outcome>
    requires { length text.now ≤ document_limit }
    ensures ok { IfOk result (λ install. IsInstallOf text.now install.items) }
    ensures err { IfErr result (λ outcome. HasNoInstall outcome text.now) }
    ensures of_text { IfErr result IsOfText }
{
    let document = match document_of(alloc, text) {
        Ok(document) => document,
        Err(outcome) => return Err(outcome),
    };
    match written(alloc, &document) {
        Ok(bytes) => Ok(bytes),
        Err(outcome) => Err(outcome),
    }
}
