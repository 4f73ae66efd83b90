//! Sessions of edits: which frames are written, and how each of them ends.
use crate::hexadecimal::{TWO_TABLES, push_hexadecimal};
use pq_command::*;
use pq_io::{MemorySink, MemorySource};
use std::alloc::{AllocError, Global};
use std::test::Fail;

const DOCUMENT: &str = "switch s1 = 1 ports 1, 2; part one = filter(port=1) >> fwd(2);\n";

// The document; a part put, a removal that is refused, and the part put back.
const PIECES: &str = "switch s1 = 1 ports 1, 2; part one = filter(port=1) >> fwd(2);\n\
    %%\n\
    part one = filter(port=1) >> fwd(1);\n\
    %%\n\
    remove part two;\n\
    %%\n\
    part one = filter(port=1) >> fwd(2);\n";

// One switch with datapath number 1 and five messages, up to the port of the one action that differs.
const CHANGE_TO: &str = "\
    0001000000000000000100000005040e0048000000010000000000000000000000000000\
    0000010400000000ffffffffffffffffffffffffffff0000000000010012800000040000\
    000180000c02100200000000000004140008000000020414000800000003040e00680000\
    000400000000000000000000000000000000010000000000ffffffffffffffffffffffff\
    ffff0000000000010012800000040000000180000c021002000000000000000400200000\
    0000001200080000000000000010";

const BACK: &str = "fffffff8";

const SECOND_PORT: &str = "00000002";

const CHANGE_END: &str = "00000000000000000414000800000005";

fn words(alloc: Global, word: &str) -> Result<Vec<String>, AllocError> {
    let mut words = Vec::new(alloc);
    words.push(String::from_str(alloc, word)?)?;
    Ok(words)
}

/// What a command answers and writes, where these reads and writes fail and a failing write keeps 3 bytes.
fn answer(
    alloc: Global,
    word: &str,
    bytes: &[u8],
    reads: &[u64],
    writes: &[u64],
) -> Result<(Outcome, Vec<u8>), AllocError> {
    let words = words(alloc, word)?;
    let mut source = MemorySource::new(
        Vec::from_slice(alloc, bytes)?,
        Vec::from_slice(alloc, reads)?,
    );
    let mut sink = MemorySink::new(alloc, Vec::from_slice(alloc, writes)?, 3, 200_000)?;
    let outcome = run(alloc, &words, &mut source, &mut sink);
    Ok((outcome, Vec::from_slice(alloc, sink.put())?))
}

/// What `session` answers and writes, where nothing fails.
fn session(alloc: Global, bytes: &[u8]) -> Result<(Outcome, Vec<u8>), AllocError> {
    answer(alloc, "session", bytes, &[], &[])
}

fn push_frame(kind: u8, content: &[u8], into: &mut Vec<u8>) -> Result<(), AllocError> {
    into.push(kind)?;
    into.extend_from_slice(&content.len().to_be_bytes())?;
    into.extend_from_slice(content)
}

/// Appends the frame of the install of the two ports: 595 bytes.
fn push_install(alloc: Global, into: &mut Vec<u8>) -> Result<(), AllocError> {
    let mut install = Vec::new(alloc);
    push_hexadecimal(TWO_TABLES, &mut install)?;
    push_frame(b'I', &install, into)
}

/// Appends the frame of the messages that let packets from port 1 leave by this port: 223 bytes.
fn push_change(alloc: Global, port: &str, into: &mut Vec<u8>) -> Result<(), AllocError> {
    let mut change = Vec::new(alloc);
    for part in [CHANGE_TO, port, CHANGE_END] {
        push_hexadecimal(part, &mut change)?;
    }
    push_frame(b'M', &change, into)
}

/// The frames of the pieces above: 1,665 bytes.
fn frames(alloc: Global) -> Result<Vec<u8>, AllocError> {
    let mut bytes = Vec::new(alloc);
    push_install(alloc, &mut bytes)?;
    push_change(alloc, BACK, &mut bytes)?;
    push_frame(b'R', b"name 12 unknown_part", &mut bytes)?;
    push_change(alloc, SECOND_PORT, &mut bytes)?;
    push_install(alloc, &mut bytes)?;
    Ok(bytes)
}

/// The bytes from this place on.
fn from(bytes: &[u8], place: usize) -> &[u8] {
    if bytes.len() > place {
        return &bytes[place..];
    }
    &[]
}

#[test]
fn a_session_has_its_frames(rt: HostRuntime) -> Result<(), Fail> {
    let alloc = rt.alloc();
    let (outcome, put) = session(alloc, PIECES.as_bytes())?;
    assert_eq!(rt; outcome, Outcome::Done);
    assert_eq!(rt; put.len(), 1665);
    assert!(rt; put == frames(alloc)?);
    Ok(())
}

#[test]
fn a_session_in_single_bytes_has_its_frames(rt: HostRuntime) -> Result<(), Fail> {
    let alloc = rt.alloc();
    let words = words(alloc, "session")?;
    let bytes = Vec::from_slice(alloc, PIECES.as_bytes())?;
    let mut source = MemorySource::cut(bytes, Vec::new(alloc), 1);
    let mut sink = MemorySink::new(alloc, Vec::new(alloc), 0, 65536)?;
    assert_eq!(rt; run(alloc, &words, &mut source, &mut sink), Outcome::Done);
    assert!(rt; sink.put() == frames(alloc)?.as_slice());
    Ok(())
}

#[test]
fn a_failing_write_leaves_a_beginning(rt: HostRuntime) -> Result<(), Fail> {
    let alloc = rt.alloc();
    let whole = frames(alloc)?;
    for (call, count) in [(1, 3), (2, 598), (3, 821), (4, 850), (5, 1073)] {
        let (outcome, put) = answer(alloc, "session", PIECES.as_bytes(), &[], &[call])?;
        assert_eq!(rt; outcome, Outcome::WriteFault);
        assert_eq!(rt; put.len(), count);
        assert!(rt; whole.starts_with(&put));
    }
    let (outcome, put) = answer(alloc, "session", PIECES.as_bytes(), &[], &[6])?;
    assert_eq!(rt; outcome, Outcome::Done);
    assert!(rt; put == whole);
    Ok(())
}

// The first read gives all bytes; the frames of the pieces that are known to be whole then are written before the second one.
#[test]
fn a_failing_read_leaves_the_frames_before_it(rt: HostRuntime) -> Result<(), Fail> {
    let alloc = rt.alloc();
    let whole = frames(alloc)?;
    for (call, count) in [(1, 0), (2, 847)] {
        let (outcome, put) = answer(alloc, "session", PIECES.as_bytes(), &[call], &[])?;
        assert_eq!(rt; outcome, Outcome::ReadFault);
        assert_eq!(rt; put.len(), count);
        assert!(rt; whole.starts_with(&put));
    }
    let (outcome, put) = answer(alloc, "session", PIECES.as_bytes(), &[3], &[])?;
    assert_eq!(rt; outcome, Outcome::Done);
    assert!(rt; put == whole);
    Ok(())
}

/// Whether a session with the document, and with this as all that comes after its line, ends so, after `count` bytes.
fn ends(alloc: Global, after: &[u8], expected: Outcome, count: usize) -> Result<bool, AllocError> {
    let mut bytes = Vec::from_slice(alloc, DOCUMENT.as_bytes())?;
    bytes.extend_from_slice(after)?;
    let (outcome, put) = session(alloc, &bytes)?;
    Ok(outcome == expected && put.len() == count)
}

fn separators(alloc: Global, count: usize) -> Result<Vec<u8>, AllocError> {
    let mut bytes = Vec::new(alloc);
    for _ in 0..count {
        bytes.extend_from_slice(b"%%\n")?;
    }
    Ok(bytes)
}

/// A line that parts pieces, and spaces.
fn spaces(alloc: Global, count: usize) -> Result<Vec<u8>, AllocError> {
    let mut bytes = Vec::from_slice(alloc, b"%%\n")?;
    bytes.extend_from_slice(&vec![in alloc; b' '; count]?)?;
    Ok(bytes)
}

#[test]
fn a_session_has_10000_pieces_at_the_most(rt: HostRuntime) -> Result<(), Fail> {
    let alloc = rt.alloc();
    let full = separators(alloc, 10_000)?;
    assert!(rt; ends(alloc, &full, Outcome::SessionFull, 170_578)?);
    let most = separators(alloc, 9_999)?;
    assert!(rt; ends(alloc, &most, Outcome::Done, 171_173)?);
    assert_eq!(rt; Outcome::SessionFull.code(), 3);
    assert_eq!(rt; Outcome::SessionFull.line(alloc)?.as_str(), "session full");
    Ok(())
}

#[test]
fn a_piece_has_524288_bytes_at_the_most(rt: HostRuntime) -> Result<(), Fail> {
    let alloc = rt.alloc();
    let most = spaces(alloc, 524_288)?;
    assert!(rt; ends(alloc, &most, Outcome::Done, 1212)?);
    let more = spaces(alloc, 524_289)?;
    assert!(rt; ends(alloc, &more, Outcome::TooLong, 595)?);
    let (outcome, put) = session(alloc, from(&more, 3))?;
    assert_eq!(rt; outcome, Outcome::TooLong);
    assert_eq!(rt; put.len(), 0);
    Ok(())
}

#[test]
fn the_end_of_the_input_ends_the_last_line(rt: HostRuntime) -> Result<(), Fail> {
    let alloc = rt.alloc();
    assert!(rt; ends(alloc, b"", Outcome::Done, 1190)?);
    assert!(rt; ends(alloc, b"%%", Outcome::Done, 1207)?);
    assert!(rt; ends(alloc, b"%%\n", Outcome::Done, 1207)?);
    let (outcome, put) = session(alloc, b"")?;
    assert_eq!(rt; outcome, Outcome::Done);
    assert_eq!(rt; put.len(), 42);
    Ok(())
}

/// Whether a session with this document and an edit ends with this line and nothing written, before a second read.
fn is_refused(alloc: Global, document: &str, line: &str) -> Result<bool, AllocError> {
    let mut bytes = Vec::from_slice(alloc, document.as_bytes())?;
    bytes.extend_from_slice(b"\n%%\npart b = drop;\n")?;
    let (outcome, put) = answer(alloc, "session", &bytes, &[2], &[])?;
    Ok(outcome.line(alloc)?.as_str() == line && put.is_empty())
}

#[test]
fn a_refused_document_ends_a_session(rt: HostRuntime) -> Result<(), Fail> {
    let alloc = rt.alloc();
    assert!(rt; is_refused(alloc, "part a = filter(port=1) > fwd(2);", "lex 24")?);
    assert!(rt; is_refused(alloc, "part a = fwd(1);;", "syntax 16")?);
    assert!(rt; is_refused(alloc, "remove part a;", "syntax 0")?);
    assert!(rt; is_refused(alloc, "part a = mod(port=2);", "name 13 not_writable")?);
    assert!(rt;
        is_refused(
            alloc,
            "switch s1 = 1 ports 1, 2 limit 2; part a = fwd(2);",
            "table full 1 0 3"
        )?
    );
    Ok(())
}

/// Whether this edit of the document has a frame with this line, and the last install is the first.
fn refuses(alloc: Global, edit: &str, line: &str) -> Result<bool, AllocError> {
    let mut bytes = Vec::from_slice(alloc, DOCUMENT.as_bytes())?;
    bytes.extend_from_slice(b"%%\n")?;
    bytes.extend_from_slice(edit.as_bytes())?;
    bytes.push(b'\n')?;
    let mut expected = Vec::new(alloc);
    push_install(alloc, &mut expected)?;
    push_frame(b'R', line.as_bytes(), &mut expected)?;
    push_install(alloc, &mut expected)?;
    let (outcome, put) = session(alloc, &bytes)?;
    Ok(outcome == Outcome::Done && put == expected)
}

#[test]
fn each_refused_edit_has_its_line(rt: HostRuntime) -> Result<(), Fail> {
    let alloc = rt.alloc();
    assert!(rt; refuses(alloc, "part one = filter(port=1) > fwd(2);", "lex 26")?);
    assert!(rt; refuses(alloc, "part one = drop;\n %%", "lex 18")?);
    assert!(rt; refuses(alloc, "part one = drop;\n%%%", "lex 17")?);
    assert!(rt; refuses(alloc, "# nothing", "syntax 10")?);
    assert!(rt; refuses(alloc, "switch s2 = 2 ports 1;", "syntax 0")?);
    assert!(rt; refuses(alloc, "part one = drop; part one = drop;", "syntax 17")?);
    assert!(rt; refuses(alloc, "remove query q;", "name 13 unknown_query")?);
    assert!(rt;
        refuses(
            alloc,
            "query q = in_atom(switch=s2);",
            "name 25 unknown_switch"
        )?
    );
    Ok(())
}

#[test]
fn a_full_table_refuses_an_edit(rt: HostRuntime) -> Result<(), Fail> {
    let alloc = rt.alloc();
    let (outcome, put) = session(
        alloc,
        b"switch s1 = 1 ports 1, 2 limit 3; part a = flood;\n\
        %%\n\
        part a = filter(port=1 and eth_type=2048 or not port=1) >> flood;\n",
    )?;
    let mut refusal = Vec::new(alloc);
    push_frame(b'R', b"table full 1 1 4", &mut refusal)?;
    assert_eq!(rt; outcome, Outcome::Done);
    assert_eq!(rt; put.len(), 1647);
    assert!(rt; from(&put, 811).starts_with(&refusal));
    assert!(rt; put.starts_with(from(&put, 836)));
    Ok(())
}

#[test]
fn an_edit_that_changes_no_table_has_no_messages(rt: HostRuntime) -> Result<(), Fail> {
    let alloc = rt.alloc();
    let (outcome, put) = session(
        alloc,
        b"switch s1 = 1 ports 1, 2; part one = filter(port=1) >> fwd(2);\n\
        %%\n\
        part two = drop;\n",
    )?;
    let mut expected = Vec::new(alloc);
    push_install(alloc, &mut expected)?;
    push_frame(b'M', &[0, 0], &mut expected)?;
    push_install(alloc, &mut expected)?;
    assert_eq!(rt; outcome, Outcome::Done);
    assert!(rt; put == expected);
    Ok(())
}

#[test]
fn a_query_is_put(rt: HostRuntime) -> Result<(), Fail> {
    let alloc = rt.alloc();
    let (outcome, put) = session(
        alloc,
        b"switch s1 = 1 ports 1, 2; part one = filter(port=1) >> fwd(2);\n\
        %%\n\
        query d = end_atom(true);\n",
    )?;
    let (_, install) = answer(
        alloc,
        "compile",
        b"switch s1 = 1 ports 1, 2; part one = filter(port=1) >> fwd(2); query d = end_atom(true);",
        &[],
        &[],
    )?;
    let mut last = Vec::new(alloc);
    push_frame(b'I', &install, &mut last)?;
    assert_eq!(rt; outcome, Outcome::Done);
    assert_eq!(rt; put.len(), 1793);
    assert!(rt; from(&put, 978) == last.as_slice());
    Ok(())
}

#[test]
fn a_query_is_put_and_removed(rt: HostRuntime) -> Result<(), Fail> {
    let alloc = rt.alloc();
    let (outcome, put) = session(
        alloc,
        b"switch s1 = 1 ports 1, 2; part one = filter(port=1) >> fwd(2);\n\
        %%\n\
        query d = end_atom(true);\n\
        %%\n\
        remove query d;\n",
    )?;
    let mut install = Vec::new(alloc);
    push_install(alloc, &mut install)?;
    assert_eq!(rt; outcome, Outcome::Done);
    assert_eq!(rt; put.len(), 1884);
    assert!(rt; put.starts_with(&install));
    assert!(rt; from(&put, 1289) == install.as_slice());
    Ok(())
}
