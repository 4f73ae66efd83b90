//! Whole documents: what is installed for them, and what a schedule then leaves.
ghost use Rattle.std.specs.Prelude.{◌<◌};

use pq_command::*;
use pq_fields::Field;
use pq_flowmod::{FlowCommand, GroupCommand, Message};
use pq_install::read_install;
use pq_io::{MemorySink, MemorySource};
use std::alloc::{AllocError, Global};
use std::fmt::Write;
use std::ops::Range;
use std::test::Fail;

/// A document with what is known of its install, and a schedule with what it leaves.
#[derive(Clone, Copy)]
struct Row {
    what: &'static str,
    document: &'static str,
    /// The length of the install, where it is known.
    bytes: Option<usize>,
    /// The entries and the groups that the install adds.
    entries: usize,
    groups: usize,
    /// The report, where it is known: a line for each tag, with the query and the label of each instance.
    report: Option<&'static str>,
    schedule: &'static str,
    output: &'static str,
}

/// What a command answers and writes.
fn answer(alloc: Global, command: &str, bytes: &[u8]) -> Result<(Outcome, Vec<u8>), AllocError> {
    let mut words = Vec::new(alloc);
    words.push(String::from_str(alloc, command)?)?;
    let mut source = MemorySource::new(Vec::from_slice(alloc, bytes)?, Vec::new(alloc));
    let mut sink = MemorySink::new(alloc, Vec::new(alloc), 0, 3_000_000)?;
    let outcome = run(alloc, &words, &mut source, &mut sink);
    Ok((outcome, Vec::from_slice(alloc, sink.put())?))
}

/// Whether the message adds an entry, and whether it adds a group.
fn adds(message: &Message) -> (bool, bool) {
    match message {
        Message::Flow(flow) => (flow.command == FlowCommand::Add, false),
        Message::Group(group) => (false, group.command == GroupCommand::Add),
        Message::Barrier { xid: _ } => (false, false),
    }
}

/// How many entries and how many groups an install adds; none where the bytes are not install.
fn added(alloc: Global, bytes: &[u8]) -> (usize, usize) {
    let mut entries: usize = 0;
    let mut groups: usize = 0;
    if let Ok((install, _)) = read_install(alloc, bytes) {
        for messages in &install.messages {
            for message in messages {
                let (entry, group) = adds(message);
                entries = entries.saturating_add(usize::from(entry));
                groups = groups.saturating_add(usize::from(group));
            }
        }
    }
    (entries, groups)
}

/// The report of an install, a line for each tag with its instances, each a query with the values of a label.
fn report(alloc: Global, bytes: &[u8]) -> Result<String, AllocError> {
    let mut text = String::new(alloc);
    if let Ok((install, _)) = read_install(alloc, bytes) {
        for row in &install.report {
            write!(text, "{}", row.tag)?;
            for pair in &row.pairs {
                write!(text, " {}{:?}", pair.query, pair.label.values())?;
            }
            text.push_str("\n")?;
        }
    }
    Ok(text)
}

#[test]
fn each_document_has_its_install(rt: HostRuntime) -> Result<(), Fail> {
    let alloc = rt.alloc();
    for row in [
        Row {
            what: "no document",
            document: "",
            bytes: Some(12),
            entries: 0,
            groups: 0,
            report: Some(""),
            schedule: "",
            output: "",
        },
        Row {
            what: "a switch without a policy",
            document: "switch s1 = 1 ports 1;",
            bytes: Some(302),
            entries: 2,
            groups: 0,
            report: Some(""),
            schedule: "inject 1 1 eth_type=2054\nhop 0\n",
            output: "",
        },
        Row {
            what: "going back",
            document: "switch s1 = 1 ports 1; part a = identity;",
            bytes: None,
            entries: 4,
            groups: 0,
            report: Some(""),
            schedule: "inject 1 1 eth_type=2054\nhop 0\n",
            output: "delivered switch=1 port=1 eth_type=2054 eth_src=00:00:00:00:00:00 eth_dst=00:00:00:00:00:00\n",
        },
        Row {
            what: "rewrites that coincide",
            document: "switch s1 = 1 ports 1, 2; part a = mod(eth_dst=02:00:00:00:00:0a) >> fwd(2) + fwd(2);",
            bytes: None,
            entries: 7,
            groups: 2,
            report: Some(""),
            schedule: "inject 1 1 eth_type=2054 eth_dst=02:00:00:00:00:0a\nhop 0\n",
            output: "delivered switch=1 port=2 eth_type=2054 eth_src=00:00:00:00:00:00 eth_dst=02:00:00:00:00:0a\n",
        },
        Row {
            what: "rewrites that differ",
            document: "switch s1 = 1 ports 1, 2; part a = mod(eth_dst=02:00:00:00:00:0a) >> fwd(2) + fwd(2);",
            bytes: None,
            entries: 7,
            groups: 2,
            report: None,
            schedule: "inject 1 1 eth_type=2054\nhop 0\n",
            output: "delivered switch=1 port=2 eth_type=2054 eth_src=00:00:00:00:00:00 eth_dst=00:00:00:00:00:00\n\
                delivered switch=1 port=2 eth_type=2054 eth_src=00:00:00:00:00:00 eth_dst=02:00:00:00:00:0a\n",
        },
        Row {
            what: "a flood",
            document: "switch s1 = 1 ports 1, 2, 3; part a = flood;",
            bytes: None,
            entries: 8,
            groups: 4,
            report: Some(""),
            schedule: "inject 1 2 eth_type=2054\nhop 0\n",
            output: "delivered switch=1 port=1 eth_type=2054 eth_src=00:00:00:00:00:00 eth_dst=00:00:00:00:00:00\n\
                delivered switch=1 port=3 eth_type=2054 eth_src=00:00:00:00:00:00 eth_dst=00:00:00:00:00:00\n",
        },
        Row {
            what: "a field that packets lack",
            document: "switch s1 = 1 ports 1, 2; part a = filter(tcp_dst=80) >> fwd(2);",
            bytes: None,
            entries: 17,
            groups: 0,
            report: None,
            schedule: "inject 1 1 eth_type=2048 ip_proto=17 tcp_dst=80 udp_dst=80\nhop 0\ninject 1 1 eth_type=2054 tcp_dst=80\nhop 0\n",
            output: "",
        },
        Row {
            what: "a write that finds no field",
            document: "switch s1 = 1 ports 1, 2; part a = mod(tcp_dst=8080) >> fwd(2);",
            bytes: None,
            entries: 17,
            groups: 0,
            report: None,
            schedule: "inject 1 1 eth_type=2054\nhop 0\n",
            output: "delivered switch=1 port=2 eth_type=2054 eth_src=00:00:00:00:00:00 eth_dst=00:00:00:00:00:00\n",
        },
        Row {
            what: "a negated prefix",
            document: "switch s1 = 1 ports 1, 2; part a = filter(not ipv4_dst=10.0.0.0/8) >> fwd(2);",
            bytes: None,
            entries: 23,
            groups: 0,
            report: None,
            schedule: "inject 1 1 eth_type=2048 ipv4_dst=10.1.2.3\nhop 0\ninject 1 1 eth_type=2048 ipv4_dst=11.1.2.3\nhop 0\n",
            output: "delivered switch=1 port=2 eth_type=2048 ip_proto=0 eth_src=00:00:00:00:00:00 eth_dst=00:00:00:00:00:00 ipv4_src=0.0.0.0 \
                ipv4_dst=11.1.2.3\n",
        },
        Row {
            what: "zero repeats",
            document: "switch s1 = 1 ports 1, 2; switch s2 = 2 ports 1, 2; switch s3 = 3 ports 1, 2; link s1 2 s2 1; link s2 2 s3 1; \
                part a = filter(port=1) >> fwd(2); query q = in_atom(switch=s1) ^ in_atom(switch=s2)*;",
            bytes: Some(3706),
            entries: 37,
            groups: 0,
            report: Some("3 0[]\n"),
            schedule: "inject 1 1 eth_type=2054\nhop 0\nhop 0\nhop 0\n",
            output: "delivered switch=3 port=2 eth_type=2054 eth_src=00:00:00:00:00:00 eth_dst=00:00:00:00:00:00\n\
                bucket q [] switch=1 port=1 eth_type=2054 eth_src=00:00:00:00:00:00 eth_dst=00:00:00:00:00:00\n\
                bucket q [] switch=2 port=1 eth_type=2054 eth_src=00:00:00:00:00:00 eth_dst=00:00:00:00:00:00\n",
        },
        Row {
            what: "a complement",
            document: "switch s1 = 1 ports 1, 2; switch s2 = 2 ports 1, 2; link s1 2 s2 1; part a = filter(port=1) >> fwd(2); query q = ~in_atom(true);",
            bytes: Some(2344),
            entries: 20,
            groups: 2,
            report: Some("1 0[]\n3 0[]\n4 0[]\n"),
            schedule: "inject 1 1 eth_type=2054\nhop 0\nhop 0\n",
            output: "delivered switch=2 port=2 eth_type=2054 eth_src=00:00:00:00:00:00 eth_dst=00:00:00:00:00:00\n\
                bucket q [] switch=1 port=1 eth_type=2054 eth_src=00:00:00:00:00:00 eth_dst=00:00:00:00:00:00\n\
                bucket q [] switch=2 port=1 eth_type=2054 eth_src=00:00:00:00:00:00 eth_dst=00:00:00:00:00:00\n\
                bucket q [] switch=2 port=1 eth_type=2054 eth_src=00:00:00:00:00:00 eth_dst=00:00:00:00:00:00\n",
        },
        Row {
            what: "labels in flight",
            document: "switch s1 = 1 ports 1, 2; switch s2 = 2 ports 1, 3; link s1 2 s2 1; \
                part go = filter(switch=s1) >> fwd(2) + filter(switch=s2) >> fwd(3); query g = in_group(true, [switch]) ^ out_atom(port=3);",
            bytes: Some(5110),
            entries: 48,
            groups: 4,
            report: Some("10 0[1]\n11 0[2]\n"),
            schedule: "inject 1 1 eth_type=2054\nhop 0\n",
            output: "flight tag=6 switch=2 port=1 eth_type=2054 eth_src=00:00:00:00:00:00 eth_dst=00:00:00:00:00:00\n",
        },
        Row {
            what: "labels",
            document: "switch s1 = 1 ports 1, 2; switch s2 = 2 ports 1, 3; link s1 2 s2 1; \
                part go = filter(switch=s1) >> fwd(2) + filter(switch=s2) >> fwd(3); query g = in_group(true, [switch]) ^ out_atom(port=3);",
            bytes: Some(5110),
            entries: 48,
            groups: 4,
            report: Some("10 0[1]\n11 0[2]\n"),
            schedule: "inject 1 1 eth_type=2054\nhop 0\nhop 0\n",
            output: "delivered switch=2 port=3 eth_type=2054 eth_src=00:00:00:00:00:00 eth_dst=00:00:00:00:00:00\n\
                bucket g [1] switch=2 port=1 eth_type=2054 eth_src=00:00:00:00:00:00 eth_dst=00:00:00:00:00:00\n",
        },
        Row {
            what: "a loop",
            document: "switch s1 = 1 ports 1, 2; switch s2 = 2 ports 1, 2; link s1 2 s2 2; part turn = fwd(2); \
                query r = (in_atom(switch=s1) ^ in_atom(switch=s2))*;",
            bytes: Some(3302),
            entries: 32,
            groups: 0,
            report: None,
            schedule: "inject 1 1 eth_type=2054\nhop 0\nhop 0\nhop 0\nhop 0\nhop 0\nhop 0\n",
            output: "flight tag=7 switch=1 port=2 eth_type=2054 eth_src=00:00:00:00:00:00 eth_dst=00:00:00:00:00:00\n\
                bucket r [] switch=2 port=2 eth_type=2054 eth_src=00:00:00:00:00:00 eth_dst=00:00:00:00:00:00\n\
                bucket r [] switch=2 port=2 eth_type=2054 eth_src=00:00:00:00:00:00 eth_dst=00:00:00:00:00:00\n\
                bucket r [] switch=2 port=2 eth_type=2054 eth_src=00:00:00:00:00:00 eth_dst=00:00:00:00:00:00\n",
        },
        Row {
            what: "two packets",
            document: "switch s1 = 1 ports 1, 2; switch s2 = 2 ports 1, 2; link s1 2 s2 1; part a = filter(port=1) >> fwd(2); \
                query q = in_atom(true)* ^ in_atom(switch=s2);",
            bytes: Some(1692),
            entries: 16,
            groups: 0,
            report: None,
            schedule: "inject 1 1 eth_type=2054\ninject 1 1 eth_type=35020\nhop 0\nlose 0\nhop 0\nhop 9\n",
            output: "delivered switch=2 port=2 eth_type=2054 eth_src=00:00:00:00:00:00 eth_dst=00:00:00:00:00:00\n\
                bucket q [] switch=2 port=1 eth_type=2054 eth_src=00:00:00:00:00:00 eth_dst=00:00:00:00:00:00\n",
        },
        Row {
            what: "an edge packet with a tag of the document",
            document: "switch s1 = 1 ports 1, 2; switch s2 = 2 ports 1, 2; link s1 2 s2 1; part a = filter(port=1) >> fwd(2); query q = ~in_atom(true);",
            bytes: Some(2344),
            entries: 20,
            groups: 2,
            report: Some("1 0[]\n3 0[]\n4 0[]\n"),
            schedule: "inject 1 1 vlan=3 eth_type=2054\nhop 0\ninject 1 1 vlan=5 eth_type=2054\nhop 0\ninject 1 1 vlan=0 eth_type=2054\nhop 0\n",
            output: "",
        },
        Row {
            what: "a dropped packet",
            document: "switch s1 = 1 ports 1, 2; part a = filter(port=1) >> fwd(2); query d = end_atom(true);",
            bytes: Some(806),
            entries: 7,
            groups: 0,
            report: Some("3 0[]\n"),
            schedule: "inject 1 2 eth_type=2054\nhop 0\n",
            output: "bucket d [] switch=1 port=2 eth_type=2054 eth_src=00:00:00:00:00:00 eth_dst=00:00:00:00:00:00\n",
        },
        Row {
            what: "no dropped packet",
            document: "switch s1 = 1 ports 1, 2; part a = filter(port=1) >> fwd(2); query d = end_atom(true);",
            bytes: Some(806),
            entries: 7,
            groups: 0,
            report: Some("3 0[]\n"),
            schedule: "inject 1 1 eth_type=2054\nhop 0\n",
            output: "delivered switch=1 port=2 eth_type=2054 eth_src=00:00:00:00:00:00 eth_dst=00:00:00:00:00:00\n",
        },
        Row {
            what: "a drop on the way",
            document: "switch s1 = 1 ports 1, 2; switch s2 = 2 ports 1, 2; link s1 2 s2 1; part a = filter(switch=s1) >> fwd(2); \
                query d = in_atom(switch=s1) ^ end_atom(switch=s2);",
            bytes: None,
            entries: 27,
            groups: 0,
            report: Some("7 0[]\n"),
            schedule: "inject 1 1 eth_type=2054\nhop 0\nhop 0\n",
            output: "bucket d [] switch=2 port=1 eth_type=2054 eth_src=00:00:00:00:00:00 eth_dst=00:00:00:00:00:00\n",
        },
        Row {
            what: "IPv6",
            document: "switch s1 = 1 ports 1, 2; part a = filter(ipv6_dst=2001:db8:0:0:0:0:0:0/32) >> fwd(2);",
            bytes: None,
            entries: 71,
            groups: 0,
            report: None,
            schedule: "inject 1 1 eth_type=34525 ip_proto=6 tcp_dst=80 ipv6_dst=2001:db8:0:0:0:0:0:1\nhop 0\n",
            output: "delivered switch=1 port=2 eth_type=34525 ip_proto=6 eth_src=00:00:00:00:00:00 eth_dst=00:00:00:00:00:00 tcp_src=0 tcp_dst=80 \
                ipv6_src=0:0:0:0:0:0:0:0 ipv6_dst=2001:db8:0:0:0:0:0:1\n",
        },
    ] {
        let (outcome, mut install) = answer(alloc, "compile", row.document.as_bytes())?;
        assert_eq!(rt; outcome, Outcome::Done, "{}", row.what);
        if let Some(bytes) = row.bytes {
            assert_eq!(rt; install.len(), bytes, "{}", row.what);
        }
        assert_eq!(rt;
            added(alloc, &install),
            (row.entries, row.groups),
            "{}",
            row.what
        );
        if let Some(expected) = row.report {
            assert_eq!(rt; report(alloc, &install)?.as_str(), expected, "{}", row.what);
        }
        install.extend_from_slice(row.schedule.as_bytes())?;
        let (outcome, left) = answer(alloc, "replay", &install)?;
        assert_eq!(rt; outcome, Outcome::Done, "{}", row.what);
        assert_eq!(rt; left.as_slice(), row.output.as_bytes(), "{}", row.what);
    }
    Ok(())
}

/// Appends the numbers of a range, each after the first text, with the second text between them.
fn push_numbers(
    text: &mut String,
    before: &str,
    numbers: Range<u32>,
    between: &str,
) -> Result<(), AllocError> {
    let first = numbers.start;
    for number in numbers {
        if number > first {
            text.push_str(between)?;
        }
        text.push_str(before)?;
        write!(text, "{number}")?;
    }
    Ok(())
}

/// A text with the numbers of a range in its middle.
fn with_numbers(
    alloc: Global,
    front: &str,
    before: &str,
    numbers: Range<u32>,
    between: &str,
    back: &str,
) -> Result<String, AllocError> {
    let mut text = String::from_str(alloc, front)?;
    push_numbers(&mut text, before, numbers, between)?;
    text.push_str(back)?;
    Ok(text)
}

/// A flood on one switch with this many ports.
fn flood(alloc: Global, ports: u32) -> Result<String, AllocError>
    requires { ports < 1000 }
{
    with_numbers(
        alloc,
        "switch s1 = 1 ports ",
        "",
        1..ports + 1,
        ", ",
        "; part a = flood;",
    )
}

/// A rule that tests this many IP protocols.
fn protocols(alloc: Global, count: u32) -> Result<String, AllocError> {
    with_numbers(
        alloc,
        "switch s1 = 1 ports 1, 2; part a = filter(",
        "ip_proto=",
        0..count,
        " or ",
        ") >> fwd(2);",
    )
}

/// A query that groups twice by this many ports.
fn grouped(alloc: Global, ports: u32) -> Result<String, AllocError>
    requires { ports < 1000 }
{
    let mut text = with_numbers(
        alloc,
        "switch s1 = 1 ports 1; query g = in_group(true, [port of (",
        "",
        1..ports + 1,
        ", ",
        ")]) ^ in_group(true, [port of (",
    )?;
    push_numbers(&mut text, "", 1..ports + 1, ", ")?;
    text.push_str(")]);")?;
    Ok(text)
}

/// A query of 2,045 atoms that hold every arrival, and then this one.
fn chain(alloc: Global, last: &str) -> Result<String, AllocError> {
    let mut text = String::from_str(alloc, "switch s1 = 1 ports 1, 2; query q = ")?;
    for _ in 0..2045u32 {
        text.push_str("in_atom(true) ^ ")?;
    }
    text.push_str(last)?;
    text.push_str(";")?;
    Ok(text)
}

#[test]
fn limits_hold_at_their_edge(rt: HostRuntime) -> Result<(), Fail> {
    let alloc = rt.alloc();
    let last = chain(alloc, "in_atom(true)")?;
    let (_, install) = answer(alloc, "compile", last.as_bytes())?;
    assert_eq!(rt; report(alloc, &install)?.as_str(), "4092 0[]\n");
    for (text, bytes, entries, groups) in [
        (last, Some(430), 3, 0),
        (protocols(alloc, 120)?, Some(52_666), 489, 0),
        (grouped(alloc, 32)?, Some(26_928), 2, 0),
        (flood(alloc, 256)?, None, 514, 257),
    ] {
        let (outcome, install) = answer(alloc, "compile", text.as_bytes())?;
        assert_eq!(rt; outcome, Outcome::Done);
        if let Some(bytes) = bytes {
            assert_eq!(rt; install.len(), bytes);
        }
        assert_eq!(rt; added(alloc, &install), (entries, groups));
    }
    Ok(())
}

#[test]
fn one_more_than_a_limit_is_refused(rt: HostRuntime) -> Result<(), Fail> {
    let alloc = rt.alloc();
    let limited = "switch s1 = 1 ports 1, 2 limit 2; part a = fwd(2);";
    for (text, expected) in [
        (
            String::from_str(alloc, limited)?,
            Outcome::TableFull {
                switch: 1,
                table: 0,
                entries: 3,
            },
        ),
        (
            chain(alloc, "out_atom(true)")?,
            Outcome::TagWidth { classes: 4095 },
        ),
        (
            protocols(alloc, 121)?,
            Outcome::ValuesFull {
                field: Field::IpProto,
                count: 121,
            },
        ),
        (grouped(alloc, 33)?, Outcome::InstancesFull { count: 1089 }),
        (
            flood(alloc, 257)?,
            Outcome::GroupFull {
                switch: 1,
                copies: 257,
            },
        ),
    ] {
        let (outcome, written) = answer(alloc, "compile", text.as_bytes())?;
        assert_eq!(rt; outcome, expected);
        assert_eq!(rt; written.len(), 0);
    }
    Ok(())
}

// A core between two access switches, with a firewall beside it.
const CAMPUS: &str = "switch core = 1 ports 1, 2, 3;\n\
switch east = 2 ports 1, 2, 3, 4, 5, 6, 7;\n\
switch west = 3 ports 1, 2, 3, 4, 5, 6, 7;\n\
switch fw = 4 ports 1;\n\
link core 1 east 1; link core 2 west 1; link core 3 fw 1;\n\
part up = filter(switch=east and not ipv4_dst=10.0.1.0/24\n\
  or switch=west and not ipv4_dst=10.0.2.0/24) >> fwd(1);\n\
part to_wall = filter(switch=core and not port=3) >> fwd(3);\n\
part wall = filter(switch=fw and not tcp_dst=23);  # back out of port 1\n\
part down = filter(switch=core and port=3) >>\n\
  (filter(ipv4_dst=10.0.1.0/24) >> fwd(1)\n\
 + filter(ipv4_dst=10.0.2.0/24) >> fwd(2));\n\
part hosts_e = filter(switch=east) >> (\n\
   filter(ipv4_dst=10.0.1.2) >> fwd(2) + filter(ipv4_dst=10.0.1.3) >> fwd(3)\n\
 + filter(ipv4_dst=10.0.1.4) >> fwd(4) + filter(ipv4_dst=10.0.1.5) >> fwd(5)\n\
 + filter(ipv4_dst=10.0.1.6) >> fwd(6) + filter(ipv4_dst=10.0.1.7) >> fwd(7));\n\
part hosts_w = filter(switch=west) >> (\n\
   filter(ipv4_dst=10.0.2.2) >> fwd(2) + filter(ipv4_dst=10.0.2.3) >> fwd(3)\n\
 + filter(ipv4_dst=10.0.2.4) >> fwd(4) + filter(ipv4_dst=10.0.2.5) >> fwd(5)\n\
 + filter(ipv4_dst=10.0.2.6) >> fwd(6) + filter(ipv4_dst=10.0.2.7) >> fwd(7));\n\
query walled = in_atom(switch=east) ^ in_atom(true)* ^ in_atom(switch=fw)\n\
  ^ in_atom(true)* ^ in_atom(switch=west);\n\
query bypass = in_atom(switch=east) ^ in_atom(true)* ^ in_atom(switch=west)\n\
  & ~(in_atom(true)* ^ in_atom(switch=fw) ^ in_atom(true)*);\n\
";

#[test]
fn a_campus_sends_traffic_by_its_firewall(rt: HostRuntime) -> Result<(), Fail> {
    let alloc = rt.alloc();
    let (outcome, install) = answer(alloc, "compile", CAMPUS.as_bytes())?;
    assert_eq!(rt; outcome, Outcome::Done);
    assert_eq!(rt; install.len(), 370_214);
    assert_eq!(rt; added(alloc, &install), (3194, 0));
    for (packet, expected) in [
        (
            "inject 2 2 eth_type=2048 ip_proto=6 ipv4_src=10.0.1.2 ipv4_dst=10.0.2.3 tcp_dst=80\nhop 0\nhop 0\nhop 0\nhop 0\nhop 0\n",
            "delivered switch=3 port=3 eth_type=2048 ip_proto=6 eth_src=00:00:00:00:00:00 eth_dst=00:00:00:00:00:00 ipv4_src=10.0.1.2 \
                ipv4_dst=10.0.2.3 tcp_src=0 tcp_dst=80\n\
                bucket walled [] switch=3 port=1 eth_type=2048 ip_proto=6 eth_src=00:00:00:00:00:00 eth_dst=00:00:00:00:00:00 ipv4_src=10.0.1.2 \
                ipv4_dst=10.0.2.3 tcp_src=0 tcp_dst=80\n",
        ),
        (
            "inject 2 2 eth_type=2048 ip_proto=6 ipv4_src=10.0.1.2 ipv4_dst=10.0.2.3 tcp_dst=23\nhop 0\nhop 0\nhop 0\n",
            "",
        ),
    ] {
        let mut input = Vec::from_slice(alloc, &install)?;
        input.extend_from_slice(packet.as_bytes())?;
        let (outcome, left) = answer(alloc, "replay", &input)?;
        assert_eq!(rt; outcome, Outcome::Done);
        assert_eq!(rt; left.as_slice(), expected.as_bytes());
    }
    Ok(())
}
