//! Sessions with a switch: what is written, and how each of them ends.
use crate::hexadecimal::{TWO_TABLES, push_hexadecimal};
use pq_command::*;
use pq_io::{MemorySink, MemorySource};
use pq_speaker::{Reason, Talk};
use std::alloc::{AllocError, Global};
use std::test::Fail;

const HELLO: &str = "0400000800000000";

// The switch with the datapath number 1.
const FEATURES: &str = "0406002000000000000000000000000100000000040000000000000000000000";

// The answer to the last barrier.
const CARRIED_OUT: &str = "041500080000000a";

const OTHER_SWITCH: &str = "0406002000000000000000000000000700000000040000000000000000000000";

const ERROR: &str = "0401000c0000000000050002";

// A HELLO and the question which switch is there; the messages follow.
const ASKED: &str = "04000008000000000405000800000000";

fn words(alloc: Global, texts: &[&str]) -> Result<Vec<String>, AllocError> {
    let mut words = Vec::new(alloc);
    for text in texts {
        words.push(String::from_str(alloc, text)?)?;
    }
    Ok(words)
}

fn install(alloc: Global) -> Result<Vec<u8>, AllocError> {
    let mut bytes = Vec::new(alloc);
    push_hexadecimal(TWO_TABLES, &mut bytes)?;
    Ok(bytes)
}

/// A line, bytes of an install, and what the switch sends, in hexadecimal pieces.
fn text(alloc: Global, line: &str, install: &[u8], sent: &[&str]) -> Result<Vec<u8>, AllocError> {
    let mut bytes = Vec::from_slice(alloc, line.as_bytes())?;
    bytes.extend_from_slice(install)?;
    for piece in sent {
        push_hexadecimal(piece, &mut bytes)?;
    }
    Ok(bytes)
}

/// What `speak` answers and writes for a datapath number, where these reads and writes fail and a failing write keeps 3 bytes.
fn spoken(
    alloc: Global,
    datapath: &str,
    bytes: Vec<u8>,
    reads: &[u64],
    writes: &[u64],
) -> Result<(Outcome, Vec<u8>), AllocError> {
    let words = words(alloc, &["speak", datapath])?;
    let mut source = MemorySource::new(bytes, Vec::from_slice(alloc, reads)?);
    let mut sink = MemorySink::new(alloc, Vec::from_slice(alloc, writes)?, 3, 65536)?;
    let outcome = run(alloc, &words, &mut source, &mut sink);
    Ok((outcome, Vec::from_slice(alloc, sink.put())?))
}

/// A HELLO, the question which switch is there, and all messages: 568 bytes.
fn all_sent(alloc: Global) -> Result<Vec<u8>, AllocError> {
    let mut bytes = Vec::new(alloc);
    push_hexadecimal(ASKED, &mut bytes)?;
    let whole = install(alloc)?;
    if whole.len() > 34 {
        bytes.extend_from_slice(&whole[34..])?;
    }
    Ok(bytes)
}

#[test]
fn a_session_installs(rt: HostRuntime) -> Result<(), Fail> {
    let alloc = rt.alloc();
    let bytes = text(
        alloc,
        "586\n",
        &install(alloc)?,
        &[HELLO, FEATURES, CARRIED_OUT],
    )?;
    let (outcome, put) = spoken(alloc, "1", bytes, &[], &[])?;
    assert_eq!(rt; outcome, Outcome::Done);
    assert_eq!(rt; put.len(), 568);
    assert!(rt; put == all_sent(alloc)?);
    Ok(())
}

#[test]
fn a_session_in_single_bytes_installs(rt: HostRuntime) -> Result<(), Fail> {
    let alloc = rt.alloc();
    let bytes = text(
        alloc,
        "586\n",
        &install(alloc)?,
        &[HELLO, FEATURES, CARRIED_OUT],
    )?;
    let words = words(alloc, &["speak", "1"])?;
    let mut source = MemorySource::cut(bytes, Vec::new(alloc), 1);
    let mut sink = MemorySink::new(alloc, Vec::new(alloc), 0, 65536)?;
    assert_eq!(rt; run(alloc, &words, &mut source, &mut sink), Outcome::Done);
    assert!(rt; sink.put() == all_sent(alloc)?.as_slice());
    Ok(())
}

fn failed(reason: Reason) -> Outcome {
    Outcome::Speaking {
        talk: Talk::Failed(reason),
    }
}

fn stopped(talk: Talk) -> Outcome {
    Outcome::Speaking { talk }
}

fn bad_version(version: u8) -> Outcome {
    failed(Reason::BadVersion { version })
}

fn bad_length(length: u16) -> Outcome {
    failed(Reason::BadLength { length })
}

fn refused() -> Outcome {
    failed(Reason::SwitchError { kind: 5, code: 2 })
}

/// Whether a session in which the switch sends this ends so, after this many bytes.
fn ends(alloc: Global, sent: &[&str], expected: Outcome, count: usize) -> Result<bool, AllocError> {
    let bytes = text(alloc, "586\n", &install(alloc)?, sent)?;
    let (outcome, put) = spoken(alloc, "1", bytes, &[], &[])?;
    Ok(outcome == expected && put.len() == count)
}

#[test]
fn each_session_ends_in_its_state(rt: HostRuntime) -> Result<(), Fail> {
    let alloc = rt.alloc();
    assert!(rt; ends(alloc, &[], stopped(Talk::Greeting), 8)?);
    assert!(rt; ends(alloc, &[ERROR], refused(), 8)?);
    assert!(rt; ends(alloc, &["0100000800000000"], bad_version(1), 8)?);
    assert!(rt; ends(alloc, &["0302000800000000"], bad_version(3), 8)?);
    assert!(rt; ends(alloc, &["0400000400000000"], bad_length(4), 8)?);
    assert!(rt; ends(alloc, &["0401000b00000000"], bad_length(11), 8)?);
    assert!(rt;
        ends(
            alloc,
            &["0100000800000000", HELLO, FEATURES],
            bad_version(1),
            8
        )?
    );
    assert!(rt; ends(alloc, &[HELLO], stopped(Talk::Asking), 16)?);
    assert!(rt; ends(alloc, &[HELLO, HELLO], stopped(Talk::Asking), 16)?);
    assert!(rt; ends(alloc, &[HELLO, "0406001800000000"], bad_length(24), 16)?);
    assert!(rt;
        ends(
            alloc,
            &[HELLO, OTHER_SWITCH],
            failed(Reason::OtherSwitch { datapath: 7 }),
            16
        )?
    );
    assert!(rt;
        ends(
            alloc,
            &[HELLO, "0402000a00000009beef"],
            stopped(Talk::Asking),
            26
        )?
    );
    Ok(())
}

#[test]
fn each_later_message_has_its_effect(rt: HostRuntime) -> Result<(), Fail> {
    let alloc = rt.alloc();
    assert!(rt; ends(alloc, &[HELLO, FEATURES], stopped(Talk::Installing), 568)?);
    assert!(rt; ends(alloc, &[HELLO, FEATURES, ERROR], refused(), 568)?);
    assert!(rt;
        ends(
            alloc,
            &[HELLO, FEATURES, "0415000800000003"],
            stopped(Talk::Installing),
            568
        )?
    );
    assert!(rt;
        ends(
            alloc,
            &[HELLO, CARRIED_OUT, FEATURES],
            stopped(Talk::Installing),
            568
        )?
    );
    assert!(rt;
        ends(
            alloc,
            &[HELLO, FEATURES, CARRIED_OUT, ERROR],
            Outcome::Done,
            568
        )?
    );
    assert!(rt;
        ends(
            alloc,
            &[HELLO, FEATURES, CARRIED_OUT, "0402000800000009"],
            Outcome::Done,
            576
        )?
    );
    assert!(rt;
        ends(
            alloc,
            &[HELLO, FEATURES, CARRIED_OUT, "0502000800000000"],
            bad_version(5),
            568
        )?
    );
    Ok(())
}
