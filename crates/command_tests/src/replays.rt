use crate::commands::TWO_PORTS_INSTALL;
use pq_command::*;
use pq_io::{MemorySink, MemorySource};
use std::alloc::{AllocError, Global};
use std::test::Fail;

// One switch with the ports 1 to 3, a query q, and one row of the report: tag 5, query 0, label 7, 9.
const HEAD: &str =
    "0001000000000000000100030000000100000002000000030000000101710001000500010000000000020000\
    0000000000070000000000000009";

const FORWARD: &str =
    "040e006000000001000000000000000000000000000000000000000000000009ffffffffffffffffffffffff\
    0000000000010012800000040000000180000c02000000000000000000040018000000000000001000000002\
    0000000000000000";

const FORWARD_TO_3: &str =
    "040e006000000001000000000000000000000000000000000000000000000009ffffffffffffffffffffffff\
    0000000000010012800000040000000180000c02000000000000000000040018000000000000001000000003\
    0000000000000000";

const LOW_TO_3: &str =
    "040e005800000001000000000000000000000000000000000000000000000005ffffffffffffffffffffffff\
    000000000001000a80000c020000000000000000000400180000000000000010000000030000000000000000";

const EQUAL_TO_3: &str =
    "040e005800000001000000000000000000000000000000000000000000000009ffffffffffffffffffffffff\
    000000000001000a80000c020000000000000000000400180000000000000010000000030000000000000000";

const BACK: &str =
    "040e006000000001000000000000000000000000000000000000000000000009ffffffffffffffffffffffff\
    0000000000010012800000040000000180000c020000000000000000000400180000000000000010fffffff8\
    0000000000000000";

const TO_ARRIVING_PORT: &str =
    "040e006000000001000000000000000000000000000000000000000000000009ffffffffffffffffffffffff\
    0000000000010012800000040000000180000c02000000000000000000040018000000000000001000000001\
    0000000000000000";

const TO_3_AND_2: &str =
    "040e007000000001000000000000000000000000000000000000000000000009ffffffffffffffffffffffff\
    0000000000010012800000040000000180000c02000000000000000000040028000000000000001000000003\
    000000000000000000000010000000020000000000000000";

const TO_NO_PORT: &str =
    "040e006000000001000000000000000000000000000000000000000000000009ffffffffffffffffffffffff\
    0000000000010012800000040000000180000c02000000000000000000040018000000000000001000000007\
    0000000000000000";

const FORWARD_IN_TABLE_1: &str =
    "040e006000000001000000000000000000000000000000000100000000000009ffffffffffffffffffffffff\
    0000000000010012800000040000000180000c02000000000000000000040018000000000000001000000002\
    0000000000000000";

const GOTO_1: &str =
    "040e005000000001000000000000000000000000000000000000000000000009ffffffffffffffffffffffff\
    0000000000010012800000040000000180000c0200000000000000000001000801000000";

const DELETE_ALL: &str =
    "040e00380000000100000000000000000000000000000000ff03000000000000ffffffffffffffffffffffff\
    000000000001000400000000";

const DELETE_FORWARD: &str =
    "040e004800000001000000000000000000000000000000000004000000000009ffffffffffffffffffffffff\
    0000000000010012800000040000000180000c020000000000000000";

const DELETE_OTHER_PRIORITY: &str =
    "040e004800000001000000000000000000000000000000000004000000000008ffffffffffffffffffffffff\
    0000000000010012800000040000000180000c020000000000000000";

const GROUP_2_AND_3: &str =
    "040f005000000001000000000000000100200000ffffffffffffffff00000000000000100000000200000000\
    0000000000200000ffffffffffffffff0000000000000010000000030000000000000000";

const GROUP_3: &str =
    "040f003000000001000000000000000100200000ffffffffffffffff00000000000000100000000300000000\
    00000000";

const MODIFY_TO_3: &str =
    "040f003000000001000100000000000100200000ffffffffffffffff00000000000000100000000300000000\
    00000000";

const DELETE_GROUP: &str = "040f0010000000010002000000000001";

const DELETE_GROUPS: &str = "040f00100000000100020000fffffffc";

const BY_GROUP: &str =
    "040e005800000001000000000000000000000000000000000000000000000009ffffffffffffffffffffffff\
    0000000000010012800000040000000180000c02000000000000000000040010000000000016000800000001";

const GROUP_WRITES_FIRST: &str =
    "040f006000000001000000000000000100300000ffffffffffffffff00000000001900108000060600000000\
    000a00000000001000000002000000000000000000200000ffffffffffffffff000000000000001000000003\
    0000000000000000";

const TAG_2_GOTO_1: &str =
    "040e007000000001000000000000000000000000000000000000000000000009ffffffffffffffffffffffff\
    0000000000010012800000040000000180000c02000000000000000000040020000000000011000881000000\
    0019001080000c0210020000000000000001000801000000";

const UNTAG_FORWARD: &str =
    "040e006000000001000000000000000000000000000000000100000000000009ffffffffffffffffffffffff\
    000000000001000a80000c021002000000000000000400200000000000120008000000000000001000000002\
    0000000000000000";

const TAG_5_FORWARD: &str =
    "040e007800000001000000000000000000000000000000000000000000000009ffffffffffffffffffffffff\
    0000000000010012800000040000000180000c02000000000000000000040030000000000011000881000000\
    0019001080000c02100500000000000000000010000000020000000000000000";

const WRITE_TCP_FORWARD: &str =
    "040e007000000001000000000000000000000000000000000000000000000009ffffffffffffffffffffffff\
    0000000000010012800000040000000180000c02000000000000000000040028000000000019001080001c02\
    005000000000000000000010000000020000000000000000";

const WRITE_MAC_FORWARD: &str =
    "040e007000000001000000000000000000000000000000000000000000000009ffffffffffffffffffffffff\
    0000000000010012800000040000000180000c02000000000000000000040028000000000019001080000606\
    02000000000a000000000010000000020000000000000000";

const TAG_5_CAPTURE: &str =
    "040e009000000001000000000000000000000000000000000000000000000009ffffffffffffffffffffffff\
    0000000000010012800000040000000180000c02000000000000000000040048000000000011000881000000\
    0019001080000c02100500000000000000000010fffffffdffff000000000000001200080000000000000010\
    000000020000000000000000";

const CAPTURE_UNTAGGED: &str =
    "040e006000000001000000000000000000000000000000000000000000000009ffffffffffffffffffffffff\
    0000000000010012800000040000000180000c020000000000000000000400180000000000000010fffffffd\
    ffff000000000000";

const TAG_6_CAPTURE: &str =
    "040e007800000001000000000000000000000000000000000000000000000009ffffffffffffffffffffffff\
    0000000000010012800000040000000180000c02000000000000000000040030000000000011000881000000\
    0019001080000c02100600000000000000000010fffffffdffff000000000000";

const PREFIX_FORWARD: &str =
    "040e006800000001000000000000000000000000000000000000000000000009ffffffffffffffffffffffff\
    000000000001001c80000c02000080000a020800800019080a000000ff000000000000000004001800000000\
    00000010000000020000000000000000";

const WEB_FORWARD: &str =
    "040e006800000001000000000000000000000000000000000000000000000009ffffffffffffffffffffffff\
    000000000001001b80000c02000080000a020800800014010680001c02005000000000000004001800000000\
    00000010000000020000000000000000";

const PUSH_ON_TAGGED: &str =
    "040e006000000001000000000000000000000000000000000000000000000009ffffffffffffffffffffffff\
    000000000001000c800000040000000100000000000400200000000000110008810000000000001000000002\
    0000000000000000";

/// The number of a hexadecimal digit.
fn digit(byte: u8) -> u8 {
    match byte {
        b'0'..=b'9' => byte - b'0',
        b'a'..=b'f' => byte - b'a' + 10,
        _ => 0,
    }
}

/// Appends the bytes that pairs of hexadecimal digits spell.
pub(crate) fn push_hexadecimal(text: &str, into: &mut Vec<u8>) -> Result<(), AllocError> {
    for pair in text.as_bytes().chunks_exact(2) {
        if let [high, low] = pair {
            into.push(digit(*high).wrapping_mul(16).wrapping_add(digit(*low)))?;
        }
    }
    Ok(())
}

/// An install with these messages after the magic, and the schedule.
fn input(
    alloc: Global,
    magic: &[u8],
    messages: &[&str],
    schedule: &str,
) -> Result<Vec<u8>, AllocError> {
    let mut bytes = Vec::from_slice(alloc, magic)?;
    push_hexadecimal(HEAD, &mut bytes)?;
    let count = u32::try_from(messages.len()).unwrap_or(u32::MAX);
    bytes.extend_from_slice(&count.to_be_bytes())?;
    for message in messages {
        push_hexadecimal(message, &mut bytes)?;
    }
    bytes.extend_from_slice(schedule.as_bytes())?;
    Ok(bytes)
}

/// What replaying the bytes answers and writes.
fn replay(alloc: Global, bytes: Vec<u8>) -> Result<(Outcome, Vec<u8>), AllocError> {
    let mut words = Vec::new(alloc);
    words.push(String::from_str(alloc, "replay")?)?;
    let mut source = MemorySource::new(bytes, Vec::new(alloc));
    let mut sink = MemorySink::new(alloc, Vec::new(alloc), 0, 65536)?;
    let outcome = run(alloc, &words, &mut source, &mut sink);
    Ok((outcome, Vec::from_slice(alloc, sink.put())?))
}

#[test]
fn packets_move_as_the_tables_say(rt: HostRuntime) -> Result<(), Fail> {
    let alloc = rt.alloc();
    let cases: [(&str, &[&str], &str, &str); 43] = [
        (
            "an entry forwards",
            &[DELETE_ALL, FORWARD],
            "inject 1 1 eth_type=2054\nhop 0\n",
            "delivered switch=1 port=2 eth_type=2054 eth_src=00:00:00:00:00:00 eth_dst=00:00:00:00:00:00\n",
        ),
        (
            "nothing is in the tables",
            &[],
            "inject 1 1 eth_type=2054\nhop 0\n",
            "",
        ),
        (
            "a packet stays in flight",
            &[FORWARD],
            "inject 1 1 eth_type=2054\n",
            "flight tag=none switch=1 port=1 eth_type=2054 eth_src=00:00:00:00:00:00 eth_dst=00:00:00:00:00:00\n",
        ),
        (
            "a stranger flies with its tag",
            &[FORWARD],
            "inject 1 1 vlan=3 eth_type=2054\n",
            "flight tag=3 switch=1 port=1 eth_type=2054 eth_src=00:00:00:00:00:00 eth_dst=00:00:00:00:00:00\n",
        ),
        (
            "a stranger meets no entry",
            &[FORWARD],
            "inject 1 1 vlan=3 eth_type=2054\nhop 0\n",
            "",
        ),
        (
            "an injection at no port",
            &[FORWARD],
            "inject 1 9 eth_type=2054\nhop 0\n",
            "",
        ),
        (
            "an injection at no switch",
            &[FORWARD],
            "inject 2 1 eth_type=2054\nhop 0\n",
            "",
        ),
        (
            "a hop at no place",
            &[FORWARD],
            "inject 1 1 eth_type=2054\nhop 1\n",
            "flight tag=none switch=1 port=1 eth_type=2054 eth_src=00:00:00:00:00:00 eth_dst=00:00:00:00:00:00\n",
        ),
        (
            "a loss",
            &[FORWARD],
            "inject 1 1 eth_type=2054\nlose 0\nhop 0\n",
            "",
        ),
        (
            "the middle of three is lost",
            &[FORWARD],
            "inject 1 1 eth_type=1\ninject 1 1 eth_type=2\ninject 1 1 eth_type=3\nlose 1\n",
            "flight tag=none switch=1 port=1 eth_type=1 eth_src=00:00:00:00:00:00 eth_dst=00:00:00:00:00:00\n\
                flight tag=none switch=1 port=1 eth_type=3 eth_src=00:00:00:00:00:00 eth_dst=00:00:00:00:00:00\n",
        ),
        (
            "IN_PORT sends back",
            &[BACK],
            "inject 1 1 eth_type=2054\nhop 0\n",
            "delivered switch=1 port=1 eth_type=2054 eth_src=00:00:00:00:00:00 eth_dst=00:00:00:00:00:00\n",
        ),
        (
            "the number of the arriving port sends nothing",
            &[TO_ARRIVING_PORT],
            "inject 1 1 eth_type=2054\nhop 0\n",
            "",
        ),
        (
            "copies come in packet order",
            &[TO_3_AND_2],
            "inject 1 1 eth_type=2054\nhop 0\n",
            "delivered switch=1 port=2 eth_type=2054 eth_src=00:00:00:00:00:00 eth_dst=00:00:00:00:00:00\n\
                delivered switch=1 port=3 eth_type=2054 eth_src=00:00:00:00:00:00 eth_dst=00:00:00:00:00:00\n",
        ),
        (
            "a port that is not there loses the copy",
            &[TO_NO_PORT],
            "inject 1 1 eth_type=2054\nhop 0\n",
            "",
        ),
        (
            "the highest priority is taken",
            &[LOW_TO_3, FORWARD],
            "inject 1 1 eth_type=2054\nhop 0\n",
            "delivered switch=1 port=2 eth_type=2054 eth_src=00:00:00:00:00:00 eth_dst=00:00:00:00:00:00\n",
        ),
        (
            "of equal priorities the first added is taken",
            &[FORWARD, EQUAL_TO_3],
            "inject 1 1 eth_type=2054\nhop 0\n",
            "delivered switch=1 port=2 eth_type=2054 eth_src=00:00:00:00:00:00 eth_dst=00:00:00:00:00:00\n",
        ),
        (
            "and so in the other order",
            &[EQUAL_TO_3, FORWARD],
            "inject 1 1 eth_type=2054\nhop 0\n",
            "delivered switch=1 port=3 eth_type=2054 eth_src=00:00:00:00:00:00 eth_dst=00:00:00:00:00:00\n",
        ),
        (
            "an Add replaces the entry at its place",
            &[FORWARD, FORWARD_TO_3],
            "inject 1 1 eth_type=2054\nhop 0\n",
            "delivered switch=1 port=3 eth_type=2054 eth_src=00:00:00:00:00:00 eth_dst=00:00:00:00:00:00\n",
        ),
        (
            "an entry of another table is not met",
            &[FORWARD_IN_TABLE_1],
            "inject 1 1 eth_type=2054\nhop 0\n",
            "",
        ),
        (
            "GOTO_TABLE goes on",
            &[FORWARD_IN_TABLE_1, GOTO_1],
            "inject 1 1 eth_type=2054\nhop 0\n",
            "delivered switch=1 port=2 eth_type=2054 eth_src=00:00:00:00:00:00 eth_dst=00:00:00:00:00:00\n",
        ),
        (
            "DeleteAll removes all",
            &[FORWARD, LOW_TO_3, DELETE_ALL],
            "inject 1 1 eth_type=2054\nhop 0\n",
            "",
        ),
        (
            "DeleteStrict removes one entry",
            &[FORWARD, LOW_TO_3, DELETE_FORWARD],
            "inject 1 1 eth_type=2054\nhop 0\n",
            "delivered switch=1 port=3 eth_type=2054 eth_src=00:00:00:00:00:00 eth_dst=00:00:00:00:00:00\n",
        ),
        (
            "DeleteStrict leaves other priorities",
            &[FORWARD, LOW_TO_3, DELETE_OTHER_PRIORITY],
            "inject 1 1 eth_type=2054\nhop 0\n",
            "delivered switch=1 port=2 eth_type=2054 eth_src=00:00:00:00:00:00 eth_dst=00:00:00:00:00:00\n",
        ),
        (
            "a group sends by each bucket",
            &[GROUP_2_AND_3, BY_GROUP],
            "inject 1 1 eth_type=2054\nhop 0\n",
            "delivered switch=1 port=2 eth_type=2054 eth_src=00:00:00:00:00:00 eth_dst=00:00:00:00:00:00\n\
                delivered switch=1 port=3 eth_type=2054 eth_src=00:00:00:00:00:00 eth_dst=00:00:00:00:00:00\n",
        ),
        (
            "an Add that names no group changes nothing",
            &[BY_GROUP],
            "inject 1 1 eth_type=2054\nhop 0\n",
            "",
        ),
        (
            "ADD of a number that is taken changes nothing",
            &[GROUP_2_AND_3, GROUP_3, BY_GROUP],
            "inject 1 1 eth_type=2054\nhop 0\n",
            "delivered switch=1 port=2 eth_type=2054 eth_src=00:00:00:00:00:00 eth_dst=00:00:00:00:00:00\n\
                delivered switch=1 port=3 eth_type=2054 eth_src=00:00:00:00:00:00 eth_dst=00:00:00:00:00:00\n",
        ),
        (
            "MODIFY replaces the buckets",
            &[GROUP_2_AND_3, BY_GROUP, MODIFY_TO_3],
            "inject 1 1 eth_type=2054\nhop 0\n",
            "delivered switch=1 port=3 eth_type=2054 eth_src=00:00:00:00:00:00 eth_dst=00:00:00:00:00:00\n",
        ),
        (
            "MODIFY of no group changes nothing",
            &[MODIFY_TO_3, BY_GROUP],
            "inject 1 1 eth_type=2054\nhop 0\n",
            "",
        ),
        (
            "DELETE of a group takes its entries along",
            &[GROUP_2_AND_3, BY_GROUP, LOW_TO_3, DELETE_GROUP],
            "inject 1 1 eth_type=2054\nhop 0\n",
            "delivered switch=1 port=3 eth_type=2054 eth_src=00:00:00:00:00:00 eth_dst=00:00:00:00:00:00\n",
        ),
        (
            "DELETE of all groups too",
            &[GROUP_2_AND_3, BY_GROUP, LOW_TO_3, DELETE_GROUPS, GROUP_3],
            "inject 1 1 eth_type=2054\nhop 0\n",
            "delivered switch=1 port=3 eth_type=2054 eth_src=00:00:00:00:00:00 eth_dst=00:00:00:00:00:00\n",
        ),
        (
            "each bucket has a copy of its own",
            &[GROUP_WRITES_FIRST, BY_GROUP],
            "inject 1 1 eth_type=2054\nhop 0\n",
            "delivered switch=1 port=2 eth_type=2054 eth_src=00:00:00:00:00:00 eth_dst=00:00:00:00:00:0a\n\
                delivered switch=1 port=3 eth_type=2054 eth_src=00:00:00:00:00:00 eth_dst=00:00:00:00:00:00\n",
        ),
        (
            "a tag carries the packet to table 1",
            &[TAG_2_GOTO_1, UNTAG_FORWARD],
            "inject 1 1 eth_type=2054\nhop 0\n",
            "delivered switch=1 port=2 eth_type=2054 eth_src=00:00:00:00:00:00 eth_dst=00:00:00:00:00:00\n",
        ),
        (
            "a header that is left is printed",
            &[TAG_5_FORWARD],
            "inject 1 1 eth_type=2054\nhop 0\n",
            "delivered switch=1 port=2 eth_type=2054 eth_src=00:00:00:00:00:00 eth_dst=00:00:00:00:00:00 vlan=5\n",
        ),
        (
            "a field that is not there is not written",
            &[WRITE_TCP_FORWARD],
            "inject 1 1 eth_type=2054\nhop 0\n",
            "delivered switch=1 port=2 eth_type=2054 eth_src=00:00:00:00:00:00 eth_dst=00:00:00:00:00:00\n",
        ),
        (
            "a field that is there is written",
            &[WRITE_MAC_FORWARD],
            "inject 1 1 eth_type=2054\nhop 0\n",
            "delivered switch=1 port=2 eth_type=2054 eth_src=00:00:00:00:00:00 eth_dst=02:00:00:00:00:0a\n",
        ),
        (
            "a capture fills the buckets of its row",
            &[TAG_5_CAPTURE],
            "inject 1 1 eth_type=2054\nhop 0\n",
            "delivered switch=1 port=2 eth_type=2054 eth_src=00:00:00:00:00:00 eth_dst=00:00:00:00:00:00\n\
                bucket q [7,9] switch=1 port=1 eth_type=2054 eth_src=00:00:00:00:00:00 eth_dst=00:00:00:00:00:00\n",
        ),
        (
            "a capture without a tag fills none",
            &[CAPTURE_UNTAGGED],
            "inject 1 1 eth_type=2054\nhop 0\n",
            "",
        ),
        (
            "a capture without a row fills none",
            &[TAG_6_CAPTURE],
            "inject 1 1 eth_type=2054\nhop 0\n",
            "",
        ),
        (
            "a prefix covers",
            &[PREFIX_FORWARD],
            "inject 1 1 eth_type=2048 ipv4_dst=10.1.2.3\nhop 0\n",
            "delivered switch=1 port=2 eth_type=2048 ip_proto=0 eth_src=00:00:00:00:00:00 eth_dst=00:00:00:00:00:00 ipv4_src=0.0.0.0 ipv4_dst=10.1.2.3\n",
        ),
        (
            "and leaves others",
            &[PREFIX_FORWARD],
            "inject 1 1 eth_type=2048 ipv4_dst=11.1.2.3\nhop 0\n",
            "",
        ),
        (
            "a TCP port covers",
            &[WEB_FORWARD],
            "inject 1 1 eth_type=2048 ip_proto=6 tcp_dst=80\nhop 0\n",
            "delivered switch=1 port=2 eth_type=2048 ip_proto=6 eth_src=00:00:00:00:00:00 eth_dst=00:00:00:00:00:00 ipv4_src=0.0.0.0 \
                ipv4_dst=0.0.0.0 tcp_src=0 tcp_dst=80\n",
        ),
        (
            "and not under another protocol",
            &[WEB_FORWARD],
            "inject 1 1 eth_type=2048 ip_proto=17 tcp_dst=80\nhop 0\n",
            "",
        ),
        (
            "PushVlan leaves the header of a tagged packet",
            &[PUSH_ON_TAGGED],
            "inject 1 1 vlan=3 eth_type=2054\nhop 0\n",
            "delivered switch=1 port=2 eth_type=2054 eth_src=00:00:00:00:00:00 eth_dst=00:00:00:00:00:00 vlan=3\n",
        ),
    ];
    for (what, messages, schedule, expected) in cases {
        for magic in [b"PQI1".as_slice(), b"PQI2"] {
            let (outcome, put) = replay(alloc, input(alloc, magic, messages, schedule)?)?;
            assert_eq!(rt; outcome, Outcome::Done, "{what}");
            assert_eq!(rt; put.as_slice(), expected.as_bytes(), "{what}");
        }
    }
    Ok(())
}

/// The install of `crate::commands`, without a schedule.
fn two_ports(alloc: Global) -> Result<Vec<u8>, AllocError> {
    let mut bytes = Vec::new(alloc);
    push_hexadecimal(TWO_PORTS_INSTALL, &mut bytes)?;
    Ok(bytes)
}

#[test]
fn each_schedule_has_its_outcome(rt: HostRuntime) -> Result<(), Fail> {
    let alloc = rt.alloc();
    for (schedule, expected) in [
        ("", Outcome::Done),
        ("inject 1 1 eth_type=2054\nhop 0\n", Outcome::Done),
        ("hop x\n", Outcome::Syntax { at: 290 }),
        ("hop 0", Outcome::Syntax { at: 290 }),
        ("\n", Outcome::Syntax { at: 290 }),
        ("hop 0\nhop  0\n", Outcome::Syntax { at: 296 }),
        ("hop 0\nlose 00\nhop x\n", Outcome::Syntax { at: 296 }),
        ("inject 1 0\n", Outcome::Syntax { at: 290 }),
        ("inject 1 4294967041\n", Outcome::Syntax { at: 290 }),
        ("inject 1 1 vlan=4096\n", Outcome::Syntax { at: 290 }),
        (
            "inject 1 1 ip_proto=6 eth_type=2048\n",
            Outcome::Syntax { at: 290 },
        ),
        (
            "hop 18446744073709551615\nhop 18446744073709551616\n",
            Outcome::Syntax { at: 315 },
        ),
    ] {
        let mut bytes = two_ports(alloc)?;
        bytes.extend_from_slice(schedule.as_bytes())?;
        let (outcome, _) = replay(alloc, bytes)?;
        assert_eq!(rt; outcome, expected, "{schedule}");
    }
    Ok(())
}

#[test]
fn an_install_of_the_old_spelling_is_replayed(rt: HostRuntime) -> Result<(), Fail> {
    let alloc = rt.alloc();
    let mut bytes = two_ports(alloc)?;
    assert_eq!(rt; bytes.len(), 290);
    bytes.extend_from_slice(b"inject 1 1 eth_type=2054\nhop 0\n")?;
    let (outcome, put) = replay(alloc, bytes)?;
    assert_eq!(rt; outcome, Outcome::Done);
    assert_eq!(rt;
        put.as_slice(),
        b"delivered switch=1 port=2 eth_type=2054 eth_src=00:00:00:00:00:00 eth_dst=00:00:00:00:00:00\n".as_slice()
    );
    Ok(())
}

#[test]
fn a_cut_install_is_damaged_at_the_unit_that_is_cut(rt: HostRuntime) -> Result<(), Fail> {
    let alloc = rt.alloc();
    let whole = two_ports(alloc)?;
    // The magic, the counts and the switch, and the seven messages.
    let units = [0, 4, 6, 24, 26, 28, 30, 34, 90, 106, 114, 122, 218, 282];
    for (size, _) in whole.iter().enumerate() {
        let mut damaged = 0;
        for unit in units {
            if unit <= size {
                damaged = unit;
            }
        }
        let mut bytes = Vec::from_slice(alloc, &whole)?;
        bytes.truncate(size);
        let (outcome, put) = replay(alloc, bytes)?;
        assert_eq!(rt; outcome, Outcome::Damaged { at: damaged }, "{size}");
        assert_eq!(rt; put.len(), 0);
    }
    Ok(())
}
