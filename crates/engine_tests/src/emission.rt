//! Installs that `emit` makes of what an engine keeps.
ghost use Rattle.std.specs.Prelude.{◌≡◌, ◌<◌, map, IfOk};
ghost use Rattle.pq_model.specs.Install.{IsLawfulInstall};
ghost use Rattle.pq_query.specs.Instances.{instances_of};
ghost use Rattle.pq_sum.specs.Sum.{UnitesParts};
ghost use Rattle.pq_compile.specs.Compiled.{IsWithinLimits};
ghost use Rattle.pq_compile.specs.Documents.{document_tree};
ghost use Rattle.pq_compile.specs.Lawful.{names_in};
ghost use Rattle.pq_compile.specs.Prepared.{AreClassified, IsCompilable, parts_in, queries_in};

use pq_compile::{CompileFault, Document, compile};
use pq_emit::emit;
use pq_engine::Engine;
use pq_install::{Install, write_install};
use pq_io::Steps;
use pq_letters::Letters;
use pq_meaning::{
    classes_tag, meaning_exists, meanings_are_laid_out, parts_depart, parts_ignore_lacking,
};
use pq_min::Classes;
use pq_query::{Instance, InstancesFault, Query, instances};
use pq_rewrite::WriteSet;
use pq_rules::RulesFault;
use pq_store::{NodeId, Store};
use pq_term::Name;
use std::alloc::{AllocError, Global};
use std::marker::Brand;
use std::sync::ledger::{Blank, Ledger};
use std::test::Fail;

/// The names of queries.
fn names_of(alloc: Global, queries: &[(Name, Query)]) -> Result<Vec<Name>, AllocError>
    ensures { IfOk result (λ names. names.items ≡ map (λ q. q.0) queries.now) }
{
    let mut names = Vec::with_capacity(alloc, queries.len())?;
    for query in queries {
        names.push(query.0)?;
    }
    Ok(names)
}

/// The names of a document's queries.
fn query_names(alloc: Global, document: &Document) -> Result<Vec<Name>, AllocError>
    ensures { IfOk result (λ names. names.items ≡ names_in (document_tree document.now).queries) }
{
    let names = names_of(alloc, &document.queries)?;
    Ok(names)
}

/// The instances of a document's queries.
fn query_instances(alloc: Global, document: &Document) -> Result<Vec<Instance>, InstancesFault>
    requires { IsCompilable (document_tree document.now) }
    ensures { IfOk result (λ all. all.items ≡ instances_of document.now.topology (queries_in (document_tree document.now))) }
{
    let all = instances(alloc, &document.queries, &document.topology)?;
    Ok(all)
}

/// The install that `emit` makes for a document, from the diagram of the union of its parts, and from the letters and the
/// classes of its queries. What is asked for is what the readers of an engine say.
fn emitted(
    document: &Document,
    names: &[Name],
    instances: &[Instance],
    forward: &Store<WriteSet>,
    total: NodeId,
    letters: &Letters,
    classes: &Classes,
) -> Result<Install, RulesFault>
    requires compilable { IsCompilable (document_tree document.now) }
    requires within { IsWithinLimits (document_tree document.now) }
    requires names { names.now ≡ names_in (document_tree document.now).queries }
    requires total { UnitesParts document.now.topology forward.now (parts_in (document_tree document.now)) total }
    requires classified { AreClassified (document_tree document.now) instances.now letters.now classes.now }
    ensures { IfOk result IsLawfulInstall }
{
    parts_depart();
    parts_ignore_lacking();
    classes_tag();
    meaning_exists();
    meanings_are_laid_out();
    match emit(
        &document.topology,
        names,
        forward,
        total,
        letters,
        classes,
        instances,
    ) {
        Ok(install) => Ok(install),
        Err(fault) => Err(fault),
    }
}

/// The install that `emit` makes of what an engine keeps.
fn emitted_by(
    engine: &Engine,
    document: &Document,
    names: &[Name],
    instances: &[Instance],
) -> Result<Install, RulesFault>
    requires document { document_tree document.now ≡ engine.now.document }
    requires compilable { IsCompilable (document_tree document.now) }
    requires within { IsWithinLimits (document_tree document.now) }
    requires names { names.now ≡ names_in (document_tree document.now).queries }
    requires instances { instances.now ≡ instances_of document.now.topology (queries_in (document_tree document.now)) }
    ensures { IfOk result IsLawfulInstall }
{
    let forward = engine.forward();
    let total = engine.total();
    let letters = engine.letters();
    let classes = engine.classes();
    match emitted(document, names, instances, forward, total, letters, classes) {
        Ok(install) => Ok(install),
        Err(fault) => Err(fault),
    }
}

/// The bytes of an install.
fn bytes_of(alloc: Global, install: &Install) -> Result<Vec<u8>, AllocError>
    requires { IsLawfulInstall install.now }
{
    let mut bytes = Vec::new(alloc);
    write_install(alloc, install, &mut bytes)?;
    Ok(bytes)
}

/// The bytes of the install that `emit` makes of what an engine keeps.
fn emitted_bytes(alloc: Global, engine: &Engine) -> Result<Vec<u8>, Fail> {
    let document = engine.document();
    let names = query_names(alloc, document)?;
    let instances = query_instances(alloc, document)?;
    let install = emitted_by(engine, document, &names, &instances)?;
    let bytes = bytes_of(alloc, &install)?;
    Ok(bytes)
}

/// The bytes of an engine's install.
pub(crate) fn kept_bytes(alloc: Global, engine: &Engine) -> Result<Vec<u8>, AllocError> {
    let bytes = bytes_of(alloc, engine.install())?;
    Ok(bytes)
}

/// The install that `compile` makes of a document.
fn compiled<L: Ledger>(
    alloc: Global,
    document: &Document,
    blank: Blank,
) -> Result<Install, CompileFault>
    requires name { blank.name ≡ L.name }
    requires parts { blank.parts ≡ L.parts }
    requires some { 0 < blank.parts }
    requires compilable { IsCompilable (document_tree document.now) }
    ensures { IfOk result IsLawfulInstall }
{
    let (book, share) = blank.open();
    let mut steps: Steps<L> = Steps::start(book, share);
    match compile(alloc, document, &mut steps) {
        Ok(install) => Ok(install),
        Err(fault) => Err(fault),
    }
}

/// The bytes of the install that `compile` makes of a document.
fn compiled_bytes(alloc: Global, document: &Document) -> Result<Vec<u8>, Fail>
    requires { IsCompilable (document_tree document.now) }
{
    let install = compiled::<Brand>(alloc, document, Blank::new(1))?;
    let bytes = bytes_of(alloc, &install)?;
    Ok(bytes)
}

/// The bytes of an engine's install, where `emit` makes the same of what the engine keeps, and `compile` of its document.
pub(crate) fn agreed_bytes(alloc: Global, engine: &Engine) -> Result<Vec<u8>, Fail> {
    let kept = kept_bytes(alloc, engine)?;
    let emitted = emitted_bytes(alloc, engine)?;
    if kept != emitted {
        return Err(Fail::new("emit makes another install"));
    }
    let compiled = compiled_bytes(alloc, engine.document())?;
    if kept != compiled {
        return Err(Fail::new("compile makes another install"));
    }
    Ok(kept)
}
