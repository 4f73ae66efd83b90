//! Engines of documents, and edits that are made in turn.
ghost use Rattle.std.specs.Prelude.{◌≡◌, ◌<◌};
ghost use Rattle.pq_edit.specs.Edits.{IsLawfulEdit, edit_tree};

use crate::emission::{agreed_bytes, kept_bytes};
use crate::texts::{document_of, edit_of};
use pq_compile::CompileFault;
use pq_edit::Edit;
use pq_engine::Engine;
use pq_io::Steps;
use std::alloc::Global;
use std::marker::Brand;
use std::sync::ledger::{Blank, Ledger};
use std::test::Fail;

/// The most bytes of a text.
const MOST_BYTES: usize = 524_288;

/// The engine of the document of a text.
fn opened(alloc: Global, text: &str) -> Result<Engine, Fail> {
    let bytes = text.as_bytes();
    if MOST_BYTES < bytes.len() {
        return Err(Fail::new("the text is too long"));
    }
    let document = document_of(alloc, bytes)?;
    let engine = Engine::open(alloc, document)?;
    Ok(engine)
}

/// Makes an edit, or gives the limit that the edited document goes beyond.
fn counted_edit<L: Ledger, M: Ledger>(
    alloc: Global,
    engine: &mut Engine,
    edit: Edit,
    unions: Blank,
    derivations: Blank,
) -> Result<(), CompileFault>
    requires lawful { IsLawfulEdit engine.old.document (edit_tree edit) }
    requires unions_name { unions.name ≡ L.name }
    requires unions_parts { unions.parts ≡ L.parts }
    requires unions_some { 0 < unions.parts }
    requires derivations_name { derivations.name ≡ M.name }
    requires derivations_parts { derivations.parts ≡ M.parts }
    requires derivations_some { 0 < derivations.parts }
{
    let (unions_book, unions_share) = unions.open();
    let mut union_steps: Steps<L> = Steps::start(unions_book, unions_share);
    let (derivations_book, derivations_share) = derivations.open();
    let mut derivation_steps: Steps<M> = Steps::start(derivations_book, derivations_share);
    match engine.edit(alloc, edit, &mut union_steps, &mut derivation_steps) {
        Ok(_) => Ok(()),
        Err(fault) => Err(fault),
    }
}

/// Makes the edit of a text, or gives the limit that the edited document goes beyond.
fn edit(alloc: Global, engine: &mut Engine, text: &str) -> Result<Option<CompileFault>, Fail> {
    let bytes = text.as_bytes();
    if MOST_BYTES < bytes.len() {
        return Err(Fail::new("the text is too long"));
    }
    let edit = edit_of(alloc, bytes, engine.document())?;
    match counted_edit::<Brand, Brand>(alloc, engine, edit, Blank::new(1), Blank::new(1)) {
        Ok(()) => Ok(None),
        Err(fault) => Ok(Some(fault)),
    }
}

/// Makes the edit of a text, whose document is within all limits.
fn make(alloc: Global, engine: &mut Engine, text: &str) -> Result<(), Fail> {
    match edit(alloc, engine, text)? {
        None => Ok(()),
        Some(fault) => Err(Fail::from(fault)),
    }
}

/// A core between two access switches, with a firewall beside it.
const CAMPUS: &str = "switch core = 1 ports 1, 2, 3;\n\
switch east = 2 ports 1, 2, 3, 4, 5, 6, 7;\n\
switch west = 3 ports 1, 2, 3, 4, 5, 6, 7;\n\
switch fw = 4 ports 1;\n\
link core 1 east 1; link core 2 west 1; link core 3 fw 1;\n\
part up = filter(switch=east and not ipv4_dst=10.0.1.0/24\n\
  or switch=west and not ipv4_dst=10.0.2.0/24) >> fwd(1);\n\
part to_wall = filter(switch=core and not port=3) >> fwd(3);\n\
part wall = filter(switch=fw and not tcp_dst=23);  # back out of port 1\n\
part down = filter(switch=core and port=3) >>\n\
  (filter(ipv4_dst=10.0.1.0/24) >> fwd(1)\n\
 + filter(ipv4_dst=10.0.2.0/24) >> fwd(2));\n\
part hosts_e = filter(switch=east) >> (\n\
   filter(ipv4_dst=10.0.1.2) >> fwd(2) + filter(ipv4_dst=10.0.1.3) >> fwd(3)\n\
 + filter(ipv4_dst=10.0.1.4) >> fwd(4) + filter(ipv4_dst=10.0.1.5) >> fwd(5)\n\
 + filter(ipv4_dst=10.0.1.6) >> fwd(6) + filter(ipv4_dst=10.0.1.7) >> fwd(7));\n\
part hosts_w = filter(switch=west) >> (\n\
   filter(ipv4_dst=10.0.2.2) >> fwd(2) + filter(ipv4_dst=10.0.2.3) >> fwd(3)\n\
 + filter(ipv4_dst=10.0.2.4) >> fwd(4) + filter(ipv4_dst=10.0.2.5) >> fwd(5)\n\
 + filter(ipv4_dst=10.0.2.6) >> fwd(6) + filter(ipv4_dst=10.0.2.7) >> fwd(7));\n\
query walled = in_atom(switch=east) ^ in_atom(true)* ^ in_atom(switch=fw)\n\
  ^ in_atom(true)* ^ in_atom(switch=west);\n\
query bypass = in_atom(switch=east) ^ in_atom(true)* ^ in_atom(switch=west)\n\
  & ~(in_atom(true)* ^ in_atom(switch=fw) ^ in_atom(true)*);\n\
";

/// The part `up` of the campus.
const UP: &str = "part up = filter(switch=east and not ipv4_dst=10.0.1.0/24\n\
  or switch=west and not ipv4_dst=10.0.2.0/24) >> fwd(1);";

#[test]
fn emit_makes_the_install_of_what_an_engine_keeps(rt: HostRuntime) -> Result<(), Fail> {
    let alloc = rt.alloc();
    let mut engine = opened(alloc, CAMPUS)?;
    let first = agreed_bytes(alloc, &engine)?;
    assert_eq!(rt; first.len(), 370_214);
    make(alloc, &mut engine, "part up = drop;")?;
    let without = agreed_bytes(alloc, &engine)?;
    assert!(rt; without != first);
    make(alloc, &mut engine, UP)?;
    let last = agreed_bytes(alloc, &engine)?;
    assert!(rt; last == first);
    Ok(())
}

/// Two switches, each of which sends on what comes from its first port, and a query.
const LINE: &str = "switch s1 = 1 ports 1, 2;\n\
switch s2 = 2 ports 1, 2;\n\
link s1 2 s2 1;\n\
part one = filter(switch=s1 and port=1) >> fwd(2);\n\
part two = filter(switch=s2 and port=1) >> fwd(2);\n\
query q = in_atom(switch=s1) ^ in_atom(switch=s2);\n\
";

#[test]
fn parts_put_in_turn_leave_as_many_nodes(rt: HostRuntime) -> Result<(), Fail> {
    let alloc = rt.alloc();
    let mut engine = opened(alloc, LINE)?;
    let first = engine.nodes();
    make(
        alloc,
        &mut engine,
        "part one = mod(tcp_dst=8080) >> fwd(2);",
    )?;
    let other = engine.nodes();
    assert!(rt; other != first);
    for _ in 0..100 {
        make(
            alloc,
            &mut engine,
            "part one = filter(switch=s1 and port=1) >> fwd(2);",
        )?;
        assert_eq!(rt; engine.nodes(), first);
        make(
            alloc,
            &mut engine,
            "part one = mod(tcp_dst=8080) >> fwd(2);",
        )?;
        assert_eq!(rt; engine.nodes(), other);
    }
    Ok(())
}

/// A switch whose tables are full.
const FULL: &str = "switch s1 = 1 ports 1, 2 limit 3; part one = filter(port=1) >> fwd(2);";

#[test]
fn a_refused_edit_leaves_the_install(rt: HostRuntime) -> Result<(), Fail> {
    let alloc = rt.alloc();
    let mut engine = opened(alloc, FULL)?;
    let first = kept_bytes(alloc, &engine)?;
    let refused = edit(
        alloc,
        &mut engine,
        "part one = mod(tcp_dst=8080) >> fwd(2);",
    )?;
    let full = matches!(
        refused,
        Some(CompileFault::TableFull {
            switch: 1,
            table: 1,
            entries: 14
        })
    );
    assert!(rt; full);
    assert!(rt; kept_bytes(alloc, &engine)? == first);
    make(alloc, &mut engine, "part one = filter(port=1) >> fwd(2);")?;
    assert!(rt; kept_bytes(alloc, &engine)? == first);
    Ok(())
}
