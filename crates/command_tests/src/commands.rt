use crate::two_tables::TWO_TABLES;
use pq_command::*;
use pq_fields::Field;
use pq_io::{MemorySink, MemorySource};
use pq_topo::NameKind;
use std::alloc::{AllocError, Global};
use std::fmt::Write;
use std::test::Fail;

const TWO_PORTS: &str = "switch s1 = 1 ports 1, 2; part one = filter(port=1) >> fwd(2);";

// An install of these two ports with the older magic and one table, written out by hand from the standard.
pub(crate) const TWO_PORTS_INSTALL: &str = "\
    5051493100010000000000000001000200000001000000020000000000000000\
    0007040e00380000000100000000000000000000000000000000ff0300000000\
    0000ffffffffffffffffffffffff000000000001000400000000040f00100000\
    000200020000fffffffc04140008000000030414000800000004040e00600000\
    000500000000000000000000000000000000000000000000ffffffffffffffff\
    ffffffffffff0000000000010012800000040000000180000c02000000000000\
    0000000400180000000000000010000000020000000000000000040e00400000\
    000600000000000000000000000000000000000000000000fffeffffffffffff\
    ffffffffffff000000000001000a80000c020000000000000000041400080000\
    0007";

/// Two lower-case digits for each byte.
fn hexadecimal(alloc: Global, bytes: &[u8]) -> Result<String, AllocError> {
    let mut text = String::new(alloc);
    for byte in bytes {
        write!(text, "{byte:02x}")?;
    }
    Ok(text)
}

fn words(alloc: Global, texts: &[&str]) -> Result<Vec<String>, AllocError> {
    let mut words = Vec::new(alloc);
    for text in texts {
        words.push(String::from_str(alloc, text)?)?;
    }
    Ok(words)
}

fn source(alloc: Global, bytes: &[u8], failing: &[u64]) -> Result<MemorySource, AllocError> {
    let bytes = Vec::from_slice(alloc, bytes)?;
    let failing = Vec::from_slice(alloc, failing)?;
    Ok(MemorySource::new(bytes, failing))
}

fn sink(alloc: Global, failing: &[u64], kept: usize) -> Result<MemorySink, AllocError> {
    let failing = Vec::from_slice(alloc, failing)?;
    MemorySink::new(alloc, failing, kept, 4096)
}

/// The outcome of compiling the bytes, where nothing fails.
fn outcome_of(alloc: Global, bytes: &[u8]) -> Result<Outcome, AllocError> {
    let words = words(alloc, &["compile"])?;
    let mut source = source(alloc, bytes, &[])?;
    let mut sink = sink(alloc, &[], 0)?;
    Ok(run(alloc, &words, &mut source, &mut sink))
}

#[test]
fn an_install_is_written_byte_for_byte(rt: HostRuntime) -> Result<(), Fail> {
    let alloc = rt.alloc();
    let words = words(alloc, &["compile"])?;
    let mut source = source(alloc, TWO_PORTS.as_bytes(), &[])?;
    let mut sink = sink(alloc, &[], 0)?;
    assert_eq!(rt; run(alloc, &words, &mut source, &mut sink), Outcome::Done);
    assert_eq!(rt; hexadecimal(alloc, sink.put())?.as_str(), TWO_TABLES);
    Ok(())
}

#[test]
fn each_text_has_its_outcome(rt: HostRuntime) -> Result<(), Fail> {
    let alloc = rt.alloc();
    for (text, expected) in [
        (TWO_PORTS, Outcome::Done),
        (
            "switch s = 0x1 ports 2; part p = filter(port=2) >> fwd(2); # end",
            Outcome::Done,
        ),
        (
            "switch s = 1 ports 1; part p = filter(port=7) >> fwd(8);",
            Outcome::Done,
        ),
        ("", Outcome::Done),
        ("switch s = 1 ports 1;", Outcome::Done),
        (
            "switch port = 1 ports 1; part p = filter(port=1) >> fwd(1);",
            Outcome::Done,
        ),
        (
            "switch ports = 1 ports 1; part p = filter(port=1) >> fwd(1);",
            Outcome::Syntax { at: 7 },
        ),
        (
            "switch s = 1 ports 1, 1; part p = filter(port=1) >> fwd(1);",
            Outcome::Name {
                at: 22,
                kind: NameKind::Doubled,
            },
        ),
        (
            "switch s = 1 ports 0; part p = filter(port=1) >> fwd(1);",
            Outcome::Name {
                at: 19,
                kind: NameKind::BadValue,
            },
        ),
        (
            "switch s = 1 ports 4294967041; part p = filter(port=1) >> fwd(1);",
            Outcome::Name {
                at: 19,
                kind: NameKind::BadValue,
            },
        ),
        (
            "switch s = 1 ports 4294967040; part p = filter(port=1) >> fwd(1);",
            Outcome::Done,
        ),
        (
            "switch s = 1 ports 1; part p = filter(port=1) > fwd(1);",
            Outcome::Lex { at: 46 },
        ),
        (
            "switch s = 1 ports 1; part p = filter(port=1) >> fwd(1)",
            Outcome::Syntax { at: 55 },
        ),
        (
            "switch s = 1 ports 1; part p = filter(port=1) >> fwd(1);;",
            Outcome::Syntax { at: 56 },
        ),
        (
            "switch s = 1234567890123456789012345678901234567890 ports 1; part p = filter(port=1) >> fwd(1);",
            Outcome::Lex { at: 11 },
        ),
        ("\u{0}", Outcome::Lex { at: 0 }),
        ("# a comment without an end \u{ff}", Outcome::Done),
        ("part a = filter(port=1) > fwd(2);", Outcome::Lex { at: 24 }),
        ("part a = fwd(1)", Outcome::Syntax { at: 15 }),
        (
            "part a = mod(port=2);",
            Outcome::Name {
                at: 13,
                kind: NameKind::NotWritable,
            },
        ),
        (
            "query q = in_atom(true) ^ ~end_atom(false)*;",
            Outcome::Done,
        ),
        (
            "switch s1 = 1 ports 1, 2; part a = mod(eth_dst=02:00:00:00:00:0a) >> fwd(2) + fwd(2);",
            Outcome::Done,
        ),
        (
            "switch s1 = 1 ports 1; query q = in_group(true, [port of (1, 1)]);",
            Outcome::Name {
                at: 61,
                kind: NameKind::Doubled,
            },
        ),
    ] {
        assert_eq!(rt; outcome_of(alloc, text.as_bytes())?, expected, "{text}");
    }
    assert_eq!(rt; outcome_of(alloc, &[0xff])?, Outcome::Lex { at: 0 });
    Ok(())
}

#[test]
fn a_document_has_524288_bytes_at_the_most(rt: HostRuntime) -> Result<(), Fail> {
    let alloc = rt.alloc();
    let spaces = vec![in alloc; b' '; 524_289]?;
    assert_eq!(rt; outcome_of(alloc, &spaces)?, Outcome::TooLong);
    let words = words(alloc, &["compile"])?;
    let mut source = source(alloc, &spaces[1..], &[])?;
    let mut sink = sink(alloc, &[], 0)?;
    assert_eq!(rt; run(alloc, &words, &mut source, &mut sink), Outcome::Done);
    assert_eq!(rt;
        hexadecimal(alloc, sink.put())?.as_str(),
        "505149320000000000000000"
    );
    Ok(())
}

#[test]
fn other_words_touch_nothing(rt: HostRuntime) -> Result<(), Fail> {
    let alloc = rt.alloc();
    for texts in [
        [].as_slice(),
        &["compile", "now"],
        &["Compile"],
        &["replays"],
    ] {
        let words = words(alloc, texts)?;
        let mut source = source(alloc, b"text", &[])?;
        let mut sink = sink(alloc, &[], 0)?;
        assert_eq!(rt; run(alloc, &words, &mut source, &mut sink), Outcome::Words);
        assert_eq!(rt; sink.put().len(), 0);
    }
    Ok(())
}

#[test]
fn failing_calls_have_their_outcomes(rt: HostRuntime) -> Result<(), Fail> {
    let alloc = rt.alloc();
    let words = words(alloc, &["compile"])?;
    for reads in [[1].as_slice(), &[2]] {
        let mut source = source(alloc, TWO_PORTS.as_bytes(), reads)?;
        let mut sink = sink(alloc, &[], 0)?;
        assert_eq!(rt;
            run(alloc, &words, &mut source, &mut sink),
            Outcome::ReadFault
        );
        assert_eq!(rt; sink.put().len(), 0);
    }
    let mut source = source(alloc, TWO_PORTS.as_bytes(), &[])?;
    let mut sink = sink(alloc, &[1], 10)?;
    assert_eq!(rt;
        run(alloc, &words, &mut source, &mut sink),
        Outcome::WriteFault
    );
    assert_eq!(rt;
        hexadecimal(alloc, sink.put())?.as_str(),
        "50514932000100000000"
    );
    Ok(())
}

#[test]
fn each_outcome_has_its_status_and_its_line(rt: HostRuntime) -> Result<(), Fail> {
    let alloc = rt.alloc();
    for (outcome, code, line) in [
        (Outcome::Done, 0, ""),
        (Outcome::Words, 2, "words"),
        (Outcome::ReadFault, 4, "read fault"),
        (Outcome::TooLong, 1, "too long"),
        (Outcome::Syntax { at: 290 }, 1, "syntax 290"),
        (Outcome::Lex { at: 24 }, 1, "lex 24"),
        (
            Outcome::Name {
                at: 13,
                kind: NameKind::NotWritable,
            },
            1,
            "name 13 not_writable",
        ),
        (
            Outcome::Name {
                at: 0,
                kind: NameKind::Many,
            },
            1,
            "name 0 many",
        ),
        (
            Outcome::Name {
                at: 7,
                kind: NameKind::UnknownSwitch,
            },
            1,
            "name 7 unknown_switch",
        ),
        (
            Outcome::ValuesFull {
                field: Field::IpProto,
                count: 121,
            },
            3,
            "values full ip_proto 121",
        ),
        (
            Outcome::InstancesFull { count: 1089 },
            3,
            "instances full 1089",
        ),
        (Outcome::TagWidth { classes: 4095 }, 3, "tag width 4095"),
        (
            Outcome::TableFull {
                switch: 1,
                table: 0,
                entries: 3,
            },
            3,
            "table full 1 0 3",
        ),
        (
            Outcome::GroupFull {
                switch: 1,
                copies: 257,
            },
            3,
            "group full 1 257",
        ),
        (Outcome::Damaged { at: 122 }, 1, "damaged 122"),
        (Outcome::ScheduleFull, 3, "schedule full"),
        (Outcome::WriteFault, 5, "write fault"),
        (Outcome::Memory, 6, "memory"),
    ] {
        assert_eq!(rt; outcome.code(), code);
        assert_eq!(rt; outcome.line(alloc)?.as_str(), line);
    }
    Ok(())
}
