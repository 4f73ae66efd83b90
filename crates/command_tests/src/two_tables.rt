use crate::replays::push_hexadecimal;
use pq_command::*;
use pq_io::{MemorySink, MemorySource};
use std::alloc::{AllocError, Global};
use std::test::Fail;

// One switch with the ports 1 and 2. Table 0 tags what enters; table 1 sends what entered at port 1 out at port 2,
// without the tag, and drops the rest.
pub(crate) const TWO_TABLES: &str =
    "5051493200010000000000000001000200000001000000020000000000000000000a040e0038000000010000\
    0000000000000000000000000000ff03000000000000ffffffffffffffffffffffff00000000000100040000\
    0000040f00100000000200020000fffffffc04140008000000030414000800000004040e0070000000050000\
    0000000000000000000000000000000000000000ffffffffffffffffffffffffffff00000000000100128000\
    00040000000180000c020000000000000000000400200000000000110008810000000019001080000c021002\
    0000000000000001000801000000040e00700000000600000000000000000000000000000000000000000000\
    fffeffffffffffffffffffffffff0000000000010012800000040000000280000c0200000000000000000004\
    00200000000000110008810000000019001080000c0210020000000000000001000801000000040e00400000\
    000700000000000000000000000000000000000000000000fffdffffffffffffffffffffffff000000000001\
    000a80000c020000000000000000040e00680000000800000000000000000000000000000000010000000000\
    ffffffffffffffffffffffffffff0000000000010012800000040000000180000c0210020000000000000004\
    002000000000001200080000000000000010000000020000000000000000040e004000000009000000000000\
    00000000000000000000010000000000fffeffffffffffffffffffffffff000000000001000a80000c021002\
    000000000000041400080000000a";

const DELIVERED: &str =
    "delivered switch=1 port=2 eth_type=2054 eth_src=00:00:00:00:00:00 eth_dst=00:00:00:00:00:00\n";

fn two_tables(alloc: Global) -> Result<Vec<u8>, AllocError> {
    let mut bytes = Vec::new(alloc);
    push_hexadecimal(TWO_TABLES, &mut bytes)?;
    Ok(bytes)
}

/// The install with one byte in the place of another.
fn changed(alloc: Global, at: usize, byte: u8) -> Result<Vec<u8>, AllocError> {
    let whole = two_tables(alloc)?;
    let mut bytes = Vec::new(alloc);
    for (place, old) in whole.iter().enumerate() {
        bytes.push(if place == at { byte } else { *old })?;
    }
    Ok(bytes)
}

/// What a command answers and writes.
fn answer(alloc: Global, command: &str, bytes: Vec<u8>) -> Result<(Outcome, Vec<u8>), AllocError> {
    let mut words = Vec::new(alloc);
    words.push(String::from_str(alloc, command)?)?;
    let mut source = MemorySource::new(bytes, Vec::new(alloc));
    let mut sink = MemorySink::new(alloc, Vec::new(alloc), 0, 65536)?;
    let outcome = run(alloc, &words, &mut source, &mut sink);
    Ok((outcome, Vec::from_slice(alloc, sink.put())?))
}

#[test]
fn a_changed_byte_is_damage_where_its_unit_begins(rt: HostRuntime) -> Result<(), Fail> {
    let alloc = rt.alloc();
    let cases: [(&str, &str, usize, u8, Outcome); 15] = [
        ("no magic", "inspect", 0, 0, Outcome::Damaged { at: 0 }),
        ("257 switches", "inspect", 4, 1, Outcome::Damaged { at: 4 }),
        ("port 0", "inspect", 19, 0, Outcome::Damaged { at: 6 }),
        ("a link", "inspect", 25, 1, Outcome::Damaged { at: 26 }),
        ("a query", "inspect", 27, 1, Outcome::Damaged { at: 28 }),
        ("a row", "inspect", 29, 1, Outcome::Damaged { at: 30 }),
        (
            "11 messages",
            "inspect",
            33,
            11,
            Outcome::Damaged { at: 586 },
        ),
        ("9 messages", "inspect", 33, 9, Outcome::Damaged { at: 578 }),
        (
            "9 messages and no line",
            "replay",
            33,
            9,
            Outcome::Syntax { at: 578 },
        ),
        ("version 5", "inspect", 34, 5, Outcome::Damaged { at: 34 }),
        (
            "padding of a match",
            "inspect",
            188,
            1,
            Outcome::Damaged { at: 122 },
        ),
        (
            "GOTO_TABLE 0",
            "inspect",
            230,
            0,
            Outcome::Damaged { at: 122 },
        ),
        (
            "GOTO_TABLE 0, replayed",
            "replay",
            230,
            0,
            Outcome::Damaged { at: 122 },
        ),
        ("another xid", "inspect", 41, 9, Outcome::Done),
        ("nothing changed", "inspect", 0, 0x50, Outcome::Done),
    ];
    for (what, command, at, byte, expected) in cases {
        let (outcome, _) = answer(alloc, command, changed(alloc, at, byte)?)?;
        assert_eq!(rt; outcome, expected, "{what}");
    }
    Ok(())
}

#[test]
fn a_cut_message_is_damage_where_it_begins(rt: HostRuntime) -> Result<(), Fail> {
    let alloc = rt.alloc();
    let whole = two_tables(alloc)?;
    for (from, until, at) in [(114, 122, 114), (122, 234, 122), (234, 235, 234)] {
        for size in from..until {
            let mut bytes = Vec::from_slice(alloc, &whole)?;
            bytes.truncate(size);
            let (outcome, written) = answer(alloc, "inspect", bytes)?;
            assert_eq!(rt; outcome, Outcome::Damaged { at }, "{size}");
            assert_eq!(rt; written.len(), 0);
        }
    }
    Ok(())
}

#[test]
fn nothing_stands_behind_an_inspected_install(rt: HostRuntime) -> Result<(), Fail> {
    let alloc = rt.alloc();
    let mut bytes = two_tables(alloc)?;
    bytes.push(0)?;
    let (outcome, written) = answer(alloc, "inspect", bytes)?;
    assert_eq!(rt; outcome, Outcome::Damaged { at: 586 });
    assert_eq!(rt; written.len(), 0);
    Ok(())
}

#[test]
fn packets_pass_both_tables(rt: HostRuntime) -> Result<(), Fail> {
    let alloc = rt.alloc();
    for (schedule, expected) in [
        ("inject 1 1 eth_type=2054\nhop 0\n", DELIVERED),
        ("inject 1 2 eth_type=2054\nhop 0\n", ""),
        ("inject 1 1 vlan=2 eth_type=2054\nhop 0\n", ""),
    ] {
        let mut bytes = two_tables(alloc)?;
        bytes.extend_from_slice(schedule.as_bytes())?;
        let (outcome, written) = answer(alloc, "replay", bytes)?;
        assert_eq!(rt; outcome, Outcome::Done, "{schedule}");
        assert_eq!(rt; written.as_slice(), expected.as_bytes(), "{schedule}");
    }
    Ok(())
}

#[test]
fn a_schedule_has_100000_events_at_the_most(rt: HostRuntime) -> Result<(), Fail> {
    let alloc = rt.alloc();
    for (last, expected) in [
        ("", Outcome::Done),
        ("hop 0\n", Outcome::ScheduleFull),
        ("hop\n", Outcome::Syntax { at: 600_586 }),
    ] {
        let mut bytes = two_tables(alloc)?;
        for _ in 0..100_000 {
            bytes.extend_from_slice(b"hop 0\n")?;
        }
        bytes.extend_from_slice(last.as_bytes())?;
        let (outcome, written) = answer(alloc, "replay", bytes)?;
        assert_eq!(rt; outcome, expected, "{last}");
        assert_eq!(rt; written.len(), 0);
    }
    Ok(())
}
