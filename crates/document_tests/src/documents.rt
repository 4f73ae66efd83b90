//! Documents and faults of texts, worked out by hand from the grammar and the naming rules.
use pq_compile::*;
use pq_fields::{Field, Pred};
use pq_policy::Policy;
use pq_query::{Group, Query};
use pq_topo::{NameKind, Topology};
use std::alloc::{AllocError, Global};
use std::fmt::Write;
use std::test::Fail;

/// What becomes of a text, but for the byte of a fault.
#[derive(Clone, Copy, Debug, PartialEq, Eq)]
enum Answer {
    /// It is a document.
    Accepted,
    /// Something in it is not a token.
    Lex,
    /// Its tokens are not sentence.
    Syntax,
    /// A token breaks this rule.
    Name(NameKind),
    /// Memory is wanting.
    Memory,
}

/// Texts, each with a mark where its fault is, and what becomes of them.
const TEXTS: &[(&str, Answer)] = &[
    // Documents.
    ("", Answer::Accepted),
    (" \t\r\n", Answer::Accepted),
    ("# no statement", Answer::Accepted),
    ("part a = drop; # no line feed", Answer::Accepted),
    ("# ? $ > 01 \"\npart a = drop;", Answer::Accepted),
    ("switch s = 1 ports 1;", Answer::Accepted),
    (
        "switch s = 0 ports 1, 4294967040 limit 16384; switch t = 18446744073709551615 ports 0x1 limit 1;",
        Answer::Accepted,
    ),
    ("switch s = 0xFFFFffffFFFFffff ports 2;", Answer::Accepted),
    ("switch s = 1 ports 1, 2; link s 1 s 2;", Answer::Accepted),
    (
        "switch s = 1 ports 1; switch t = 2 ports 1; link t 1 s 1;",
        Answer::Accepted,
    ),
    (
        "switch a = 1 ports 1; part a = drop; query a = end_atom(false);",
        Answer::Accepted,
    ),
    (
        "part abcdefghijklmnopqrstuvwxyz_01234 = drop;",
        Answer::Accepted,
    ),
    ("part port = drop; part Port = flood;", Answer::Accepted),
    (
        "part a=drop;part b=drop;query c=end_atom(true);",
        Answer::Accepted,
    ),
    (
        "part a = filter(not port=1 and (port=2 or port=3) or true);",
        Answer::Accepted,
    ),
    (
        "part a = if(tcp_src=1, fwd(1), flood + drop) >> (identity + fwd(4294967040));",
        Answer::Accepted,
    ),
    (
        "switch s = 1 ports 1; part a = filter(switch=s and port=4294967040 or not eth_type=0xffff);",
        Answer::Accepted,
    ),
    (
        "part a = filter(ip_proto=255 and tcp_src=65535 and tcp_dst=0 and udp_src=1 and udp_dst=2);",
        Answer::Accepted,
    ),
    (
        "part a = filter(ipv4_src=10.0.0.0/8 and ipv4_dst=255.255.255.255/32 and ipv4_dst=1.2.3.4/0);",
        Answer::Accepted,
    ),
    (
        "part a = filter(ipv6_src=1:2:3:4:5:6:7:8 and ipv6_dst=fe80:0:0:0:0:0:0:0/10 and ipv6_dst=ABCD:0:0:0:0:0:0:1/128);",
        Answer::Accepted,
    ),
    (
        "part a = filter(eth_src=00:11:22:aa:BB:ff) >> mod(eth_dst=02:00:00:00:00:01);",
        Answer::Accepted,
    ),
    (
        "part a = mod(ipv4_src=1.2.3.4) >> mod(tcp_dst=65535) + mod(udp_src=0) >> mod(udp_dst=1);",
        Answer::Accepted,
    ),
    (
        "query q = in_atom(true) ^ out_atom(port=1) & end_atom(false) | ~in_atom(true)*;",
        Answer::Accepted,
    ),
    ("query q = ~~in_atom(true)*;", Answer::Accepted),
    (
        "query q = (in_atom(true) ^ in_out_atom(true, false))* | (in_atom(true));",
        Answer::Accepted,
    ),
    ("query q = in_group(true, []);", Answer::Accepted),
    (
        "query q = in_group(true, [switch, port, ip_proto of (6, 0x11), ipv4_src of (10.0.0.1)]);",
        Answer::Accepted,
    ),
    (
        "query q = in_out_group(true, [port], false, [port of (1, 2)]);",
        Answer::Accepted,
    ),
    // No tokens.
    ("!$", Answer::Lex),
    ("part a = filter(port=1) !> fwd(2);", Answer::Lex),
    ("part a = fwd(1) >>!> fwd(2);", Answer::Lex),
    ("part a = fwd(1) !>", Answer::Lex),
    ("part a = drop; !-", Answer::Lex),
    ("part a = drop !/ drop;", Answer::Lex),
    ("part part !01;", Answer::Lex),
    ("part = = drop; !@", Answer::Lex),
    ("part a = mod(port=2); !?", Answer::Lex),
    ("switch s = !18446744073709551616 ports 1;", Answer::Lex),
    ("switch s = !0x11112222333344445 ports 1;", Answer::Lex),
    ("switch s = !0x ports 1;", Answer::Lex),
    ("switch s = !0xg ports 1;", Answer::Lex),
    ("switch s = !0X10 ports 1;", Answer::Lex),
    ("part a = filter(port=!00);", Answer::Lex),
    (
        "part a = filter(eth_src=!00:11:22:33:44:55:66);",
        Answer::Lex,
    ),
    ("part a = filter(eth_src=!00:11:22:33:44);", Answer::Lex),
    ("part a = filter(eth_src=!00:11:22:33:44:5);", Answer::Lex),
    ("part a = filter(ipv4_src=!10.0.0.256);", Answer::Lex),
    ("part a = filter(ipv4_src=!10.0.0);", Answer::Lex),
    ("part a = filter(ipv4_src=!10.0.0.01);", Answer::Lex),
    ("part a = filter(ipv4_src=!10.0.0.0/33);", Answer::Lex),
    ("part a = filter(ipv4_src=!10.0.0.0/08);", Answer::Lex),
    (
        "part a = filter(ipv6_src=!1:2:3:4:5:6:7:8/129);",
        Answer::Lex,
    ),
    ("part a = filter(ipv6_src=!1:2:3:4:5:6:7);", Answer::Lex),
    (
        "part a = filter(ipv6_src=!12345:2:3:4:5:6:7:8);",
        Answer::Lex,
    ),
    ("part a = filter(ipv6_src=!1:2:3:4:5:6:7:8:9);", Answer::Lex),
    ("part a = filter(ipv6_src=!1::8);", Answer::Lex),
    (
        "part !abcdefghijklmnopqrstuvwxyz_012345 = drop;",
        Answer::Lex,
    ),
    ("part !_a = drop;", Answer::Lex),
    ("part !1a = drop;", Answer::Lex),
    ("part !a.b = drop;", Answer::Lex),
    // No sentences.
    ("!pa", Answer::Syntax),
    ("part!", Answer::Syntax),
    ("part a!", Answer::Syntax),
    ("part a =!", Answer::Syntax),
    ("part a = !fw", Answer::Syntax),
    ("part a = fwd!", Answer::Syntax),
    ("part a = fwd(!", Answer::Syntax),
    ("part a = fwd(1!", Answer::Syntax),
    ("part a = fwd(1)!", Answer::Syntax),
    ("part a = fwd(1) # more!", Answer::Syntax),
    ("switch s = 1 ports!", Answer::Syntax),
    ("switch s = 1 ports 1!", Answer::Syntax),
    ("switch s = 1 ports 1,!", Answer::Syntax),
    ("query q = in_group(true, [port of (1)!", Answer::Syntax),
    ("!;", Answer::Syntax),
    ("part a = drop;!;", Answer::Syntax),
    ("link s 1 t 1; !switch s = 1 ports 1;", Answer::Syntax),
    ("part a = drop; !link s 1 t 1;", Answer::Syntax),
    ("query q = in_atom(true); !part a = drop;", Answer::Syntax),
    ("!remove part a;", Answer::Syntax),
    ("part !part = drop;", Answer::Syntax),
    ("switch !limit = 1 ports 1;", Answer::Syntax),
    ("query !end_atom = in_atom(true);", Answer::Syntax),
    ("link !of 1 a 1;", Answer::Syntax),
    ("switch s !1 ports 1;", Answer::Syntax),
    ("switch s = !s ports 1;", Answer::Syntax),
    ("switch s = !10.0.0.1 ports 1;", Answer::Syntax),
    ("switch s = 1 ports 1 limit 5!, 6;", Answer::Syntax),
    ("part a = fwd(!s);", Answer::Syntax),
    ("part a = fwd(!00:00:00:00:00:00);", Answer::Syntax),
    ("part a = fwd(1)!, fwd(2);", Answer::Syntax),
    ("part a = filter(port=1!, true);", Answer::Syntax),
    ("part a = filter(true!=1);", Answer::Syntax),
    ("part a = filter(!limit=1);", Answer::Syntax),
    ("part a = filter(port!);", Answer::Syntax),
    ("part a = filter(port=!true);", Answer::Syntax),
    ("part a = !not drop;", Answer::Syntax),
    ("part a = drop + !;", Answer::Syntax),
    ("part a = (drop!;", Answer::Syntax),
    ("part a = drop!);", Answer::Syntax),
    ("part a = mod(port=2); part !;", Answer::Syntax),
    ("query q = in_atom(true)*!*;", Answer::Syntax),
    ("query q = in_atom(true)* !~ in_atom(true);", Answer::Syntax),
    ("query q = in_group(true!);", Answer::Syntax),
    ("query q = in_group(true, [switch, !]);", Answer::Syntax),
    ("query q = in_group(true, [port of (!)]);", Answer::Syntax),
    ("query q = in_atom(true!, true);", Answer::Syntax),
    ("query q = in_out_atom(true!);", Answer::Syntax),
    // Switches and links.
    (
        "switch s = 1 ports 1; switch !s = 2 ports 1;",
        Answer::Name(NameKind::Doubled),
    ),
    (
        "switch s = 1 ports 1; switch t = !0x1 ports 1;",
        Answer::Name(NameKind::Doubled),
    ),
    (
        "switch s = 1 ports 1; switch !s = 1 ports 0;",
        Answer::Name(NameKind::Doubled),
    ),
    ("switch s = 1 ports !0;", Answer::Name(NameKind::BadValue)),
    (
        "switch s = 1 ports 4294967040, !4294967041;",
        Answer::Name(NameKind::BadValue),
    ),
    (
        "switch s = 1 ports !0; switch s = 1 ports 1;",
        Answer::Name(NameKind::BadValue),
    ),
    (
        "switch s = 1 ports !0, 0;",
        Answer::Name(NameKind::BadValue),
    ),
    (
        "switch s = 1 ports 2, 1, !0x2;",
        Answer::Name(NameKind::Doubled),
    ),
    (
        "switch s = 1 ports 1 limit !0;",
        Answer::Name(NameKind::BadValue),
    ),
    (
        "switch s = 1 ports 1 limit !16385;",
        Answer::Name(NameKind::BadValue),
    ),
    (
        "switch s = 1 ports 1; link !t 1 s 1;",
        Answer::Name(NameKind::UnknownSwitch),
    ),
    (
        "switch s = 1 ports 1; link s 1 !t 1;",
        Answer::Name(NameKind::UnknownSwitch),
    ),
    (
        "switch s = 1 ports 1, 2; link s !3 s 2;",
        Answer::Name(NameKind::UnknownPort),
    ),
    (
        "switch s = 1 ports 1, 2; link s 1 s !4294967298;",
        Answer::Name(NameKind::UnknownPort),
    ),
    (
        "switch s = 1 ports 1; switch t = 2 ports 2; link s 1 t !1;",
        Answer::Name(NameKind::UnknownPort),
    ),
    (
        "switch s = 1 ports 1, 2; link s !0 s 1;",
        Answer::Name(NameKind::UnknownPort),
    ),
    (
        "switch s = 1 ports 1, 2; link s !9 t 9;",
        Answer::Name(NameKind::UnknownPort),
    ),
    (
        "switch s = 1 ports 1, 2; link s 1 s !1;",
        Answer::Name(NameKind::Doubled),
    ),
    (
        "switch s = 1 ports 1, 2, 3; link s 1 s 2; link s !2 s 3;",
        Answer::Name(NameKind::Doubled),
    ),
    (
        "switch s = 1 ports 1, 2, 3; link s 1 s 2; link s 3 s !1;",
        Answer::Name(NameKind::Doubled),
    ),
    (
        "link !s 1 s 1; part a = fwd(0);",
        Answer::Name(NameKind::UnknownSwitch),
    ),
    // Parts and queries.
    (
        "part a = drop; part !a = fwd(0);",
        Answer::Name(NameKind::Doubled),
    ),
    (
        "query q = in_atom(true); query !q = in_atom(port=0);",
        Answer::Name(NameKind::Doubled),
    ),
    (
        "part a = fwd(!0); part a = drop;",
        Answer::Name(NameKind::BadValue),
    ),
    (
        "part a = fwd(!0); query q = in_atom(port=0);",
        Answer::Name(NameKind::BadValue),
    ),
    (
        "switch s = 1 ports !0; part a = fwd(0);",
        Answer::Name(NameKind::BadValue),
    ),
    // Fields.
    (
        "part a = filter(!vlan=1);",
        Answer::Name(NameKind::UnknownField),
    ),
    (
        "part a = filter(!Port=0);",
        Answer::Name(NameKind::UnknownField),
    ),
    (
        "part a = mod(!vlan=1);",
        Answer::Name(NameKind::UnknownField),
    ),
    (
        "query q = in_group(true, [!vlan]);",
        Answer::Name(NameKind::UnknownField),
    ),
    (
        "query q = in_group(true, [!vlan of (1, 1)]);",
        Answer::Name(NameKind::UnknownField),
    ),
    (
        "part a = filter(not !x=1 or port=0);",
        Answer::Name(NameKind::UnknownField),
    ),
    (
        "switch s = 1 ports 1; part a = mod(!switch=s);",
        Answer::Name(NameKind::NotWritable),
    ),
    (
        "part a = mod(!port=0);",
        Answer::Name(NameKind::NotWritable),
    ),
    (
        "part a = mod(!eth_type=65536);",
        Answer::Name(NameKind::NotWritable),
    ),
    (
        "part a = mod(!ip_proto=6);",
        Answer::Name(NameKind::NotWritable),
    ),
    (
        "part a = mod(!ipv6_src=1:2:3:4:5:6:7:8);",
        Answer::Name(NameKind::NotWritable),
    ),
    (
        "part a = mod(!ipv6_dst=1:2:3:4:5:6:7:8);",
        Answer::Name(NameKind::NotWritable),
    ),
    (
        "query q = in_group(true, [port, !port]);",
        Answer::Name(NameKind::Doubled),
    ),
    (
        "query q = in_group(true, [ip_proto of (1), !ip_proto]);",
        Answer::Name(NameKind::Doubled),
    ),
    (
        "query q = in_group(true, [eth_src of (00:00:00:00:00:01), port, !eth_src of (2)]);",
        Answer::Name(NameKind::Doubled),
    ),
    (
        "query q = in_group(true, [!ip_proto]);",
        Answer::Name(NameKind::NotListed),
    ),
    (
        "query q = in_group(true, [port, !eth_dst, eth_dst]);",
        Answer::Name(NameKind::NotListed),
    ),
    (
        "query q = in_group(true, [!ipv6_src]);",
        Answer::Name(NameKind::NotListed),
    ),
    (
        "query q = in_group(true, [!ipv6_dst of (1:2:3:4:5:6:7:8)]);",
        Answer::Name(NameKind::NotListed),
    ),
    (
        "query q = in_out_group(true, [port], true, [!udp_src]);",
        Answer::Name(NameKind::NotListed),
    ),
    // Values.
    (
        "switch s = 1 ports 1; part a = filter(switch=!1);",
        Answer::Name(NameKind::BadValue),
    ),
    (
        "part a = filter(switch=!10.0.0.1);",
        Answer::Name(NameKind::BadValue),
    ),
    (
        "part a = filter(switch=!s);",
        Answer::Name(NameKind::UnknownSwitch),
    ),
    (
        "part a = filter(port=!0);",
        Answer::Name(NameKind::BadValue),
    ),
    (
        "part a = filter(port=!4294967041);",
        Answer::Name(NameKind::BadValue),
    ),
    (
        "part port = filter(port=!port);",
        Answer::Name(NameKind::BadValue),
    ),
    (
        "part a = filter(eth_type=!65536);",
        Answer::Name(NameKind::BadValue),
    ),
    (
        "part a = filter(eth_type=!ip);",
        Answer::Name(NameKind::BadValue),
    ),
    (
        "part a = filter(ip_proto=!256);",
        Answer::Name(NameKind::BadValue),
    ),
    (
        "part a = filter(eth_src=!1);",
        Answer::Name(NameKind::BadValue),
    ),
    (
        "part a = filter(eth_dst=!10.0.0.1);",
        Answer::Name(NameKind::BadValue),
    ),
    (
        "part a = filter(ipv4_src=!167772161);",
        Answer::Name(NameKind::BadValue),
    ),
    (
        "part a = filter(ipv4_dst=!00:00:00:00:00:01);",
        Answer::Name(NameKind::BadValue),
    ),
    (
        "part a = filter(ipv4_src=!1:2:3:4:5:6:7:8);",
        Answer::Name(NameKind::BadValue),
    ),
    (
        "part a = filter(ipv6_src=!10.0.0.1);",
        Answer::Name(NameKind::BadValue),
    ),
    (
        "part a = filter(ipv6_dst=!10.0.0.0/8);",
        Answer::Name(NameKind::BadValue),
    ),
    (
        "part a = filter(ipv6_src=!0);",
        Answer::Name(NameKind::BadValue),
    ),
    (
        "part a = filter(tcp_src=!65536);",
        Answer::Name(NameKind::BadValue),
    ),
    (
        "part a = filter(tcp_dst=!1.2.3.4);",
        Answer::Name(NameKind::BadValue),
    ),
    (
        "part a = filter(udp_src=!a);",
        Answer::Name(NameKind::BadValue),
    ),
    (
        "part a = filter(udp_dst=!70000);",
        Answer::Name(NameKind::BadValue),
    ),
    (
        "part a = mod(ipv4_src=!10.0.0.0/8);",
        Answer::Name(NameKind::BadValue),
    ),
    (
        "part a = mod(eth_src=!5);",
        Answer::Name(NameKind::BadValue),
    ),
    (
        "part a = mod(tcp_dst=!65536);",
        Answer::Name(NameKind::BadValue),
    ),
    (
        "query q = in_group(true, [ipv4_dst of (!10.0.0.0/8)]);",
        Answer::Name(NameKind::BadValue),
    ),
    (
        "query q = in_group(true, [port of (1, !0)]);",
        Answer::Name(NameKind::BadValue),
    ),
    (
        "query q = in_group(true, [switch of (!s)]);",
        Answer::Name(NameKind::UnknownSwitch),
    ),
    (
        "switch s = 1 ports 1; query q = in_group(true, [switch of (s, !1)]);",
        Answer::Name(NameKind::BadValue),
    ),
    (
        "query q = in_group(true, [port of (1, 2, !0x1)]);",
        Answer::Name(NameKind::Doubled),
    ),
    (
        "switch s = 1 ports 1; query q = in_group(true, [switch of (s, !s)]);",
        Answer::Name(NameKind::Doubled),
    ),
    (
        "query q = in_group(true, [eth_src of (00:00:00:00:00:aa, !00:00:00:00:00:AA)]);",
        Answer::Name(NameKind::Doubled),
    ),
    ("part a = fwd(!0);", Answer::Name(NameKind::BadValue)),
    (
        "part a = fwd(!4294967041);",
        Answer::Name(NameKind::BadValue),
    ),
    // Of two faulty tokens the first in the text.
    (
        "part a = fwd(!0) + mod(port=2);",
        Answer::Name(NameKind::BadValue),
    ),
    (
        "part a = mod(!port=2) + fwd(0);",
        Answer::Name(NameKind::NotWritable),
    ),
    (
        "part a = filter(!vlan=1) >> fwd(0);",
        Answer::Name(NameKind::UnknownField),
    ),
    (
        "part a = filter(port=!0 and vlan=1);",
        Answer::Name(NameKind::BadValue),
    ),
    (
        "part a = if(port=!0, fwd(0), drop);",
        Answer::Name(NameKind::BadValue),
    ),
    (
        "part a = if(true, fwd(!0), mod(port=1));",
        Answer::Name(NameKind::BadValue),
    ),
    (
        "part a = if(true, drop, mod(!port=1));",
        Answer::Name(NameKind::NotWritable),
    ),
    (
        "query q = in_out_group(port=1, [!vlan], vlan=2, [eth_src]);",
        Answer::Name(NameKind::UnknownField),
    ),
    (
        "query q = in_out_atom(port=!0, vlan=1);",
        Answer::Name(NameKind::BadValue),
    ),
    (
        "query q = in_atom(true) ^ ~out_atom(!dl_type=1)* & in_atom(port=0);",
        Answer::Name(NameKind::UnknownField),
    ),
    (
        "query q = in_group(true, [!tcp_src]) | in_atom(vlan=1);",
        Answer::Name(NameKind::NotListed),
    ),
    (
        "query q = in_atom(!vlan=1); query q = in_atom(true);",
        Answer::Name(NameKind::UnknownField),
    ),
];

/// What becomes of the text, and the byte of its fault; byte 0 where it has none.
fn answered(alloc: Global, text: &[u8]) -> (Answer, usize) {
    match read_document(alloc, text) {
        Ok(_) => (Answer::Accepted, 0),
        Err(DocumentFault::Lex { at }) => (Answer::Lex, at),
        Err(DocumentFault::Syntax { at }) => (Answer::Syntax, at),
        Err(DocumentFault::Name { at, kind }) => (Answer::Name(kind), at),
        Err(DocumentFault::Memory) => (Answer::Memory, 0),
    }
}

/// The text without its mark `!`, and the byte at which the mark is; byte 0 where it has none.
fn unmarked(alloc: Global, marked: &str) -> Result<(Vec<u8>, usize), AllocError> {
    let mut text = Vec::new(alloc);
    let mut place = 0;
    for byte in marked.as_bytes() {
        if *byte == b'!' {
            place = text.len();
        } else {
            text.push(*byte)?;
        }
    }
    Ok((text, place))
}

/// Whether this becomes of the text, with its fault at the mark.
fn has_answer(alloc: Global, marked: &str, wanted: Answer) -> Result<bool, AllocError> {
    let (text, place) = unmarked(alloc, marked)?;
    Ok(answered(alloc, &text) == (wanted, place))
}

#[test]
fn texts_have_their_answers(rt: HostRuntime) -> Result<(), Fail> {
    for (marked, wanted) in TEXTS {
        assert!(rt; has_answer(rt.alloc(), marked, *wanted)?, "{marked}");
    }
    Ok(())
}

#[test]
fn faults_stand_at_these_bytes(rt: HostRuntime) {
    for (text, wanted) in [
        ("part a = filter(port=1) > fwd(2);", (Answer::Lex, 24)),
        ("part a = fwd(1)", (Answer::Syntax, 15)),
        (
            "part a = mod(port=2);",
            (Answer::Name(NameKind::NotWritable), 13),
        ),
    ] {
        assert_eq!(rt; answered(rt.alloc(), text.as_bytes()), wanted, "{text}");
    }
}

/// Whether this becomes of the text, at this byte.
fn is_answered(alloc: Global, text: &str, wanted: Answer, place: usize) -> bool {
    answered(alloc, text.as_bytes()) == (wanted, place)
}

#[test]
fn other_bytes_stand_in_comments_alone(rt: HostRuntime) -> Result<(), Fail> {
    let alloc = rt.alloc();
    for byte in 0x7f..=0xffu8 {
        let mut text = Vec::from_slice(alloc, b"part a = drop; ")?;
        text.push(byte)?;
        assert_eq!(rt; answered(alloc, &text), (Answer::Lex, 15), "{byte}");
        let mut text = Vec::from_slice(alloc, b"part a = # ")?;
        text.push(byte)?;
        text.extend_from_slice(b"\n drop;")?;
        assert_eq!(rt; answered(alloc, &text), (Answer::Accepted, 0), "{byte}");
    }
    for byte in 0..0x20u8 {
        let text = [b'#', b'\n', byte];
        let wanted = match byte {
            b'\t' | b'\n' | b'\r' => (Answer::Accepted, 0),
            _ => (Answer::Lex, 2),
        };
        assert_eq!(rt; answered(alloc, &text), wanted, "{byte}");
    }
    Ok(())
}

#[test]
fn a_cut_text_ends_too_early(rt: HostRuntime) {
    let text = "query q = in_group(true, [port of (12)])*;";
    for (length, wanted) in [
        (0, (Answer::Accepted, 0)),
        (3, (Answer::Syntax, 0)),
        (5, (Answer::Syntax, 5)),
        (6, (Answer::Syntax, 6)),
        (9, (Answer::Syntax, 9)),
        (12, (Answer::Syntax, 10)),
        (18, (Answer::Syntax, 18)),
        (19, (Answer::Syntax, 19)),
        (21, (Answer::Syntax, 21)),
        (26, (Answer::Syntax, 26)),
        (30, (Answer::Syntax, 30)),
        (32, (Answer::Syntax, 31)),
        (36, (Answer::Syntax, 36)),
        (40, (Answer::Syntax, 40)),
        (41, (Answer::Syntax, 41)),
        (42, (Answer::Accepted, 0)),
    ] {
        assert_eq!(rt;
            answered(rt.alloc(), &text.as_bytes()[..length]),
            wanted,
            "{length}"
        );
    }
}

/// The front, this many times the opening, the middle, as many times the closing, and the end.
fn nested(
    alloc: Global,
    front: &str,
    opening: &str,
    count: usize,
    middle: &str,
    closing: &str,
) -> Result<String, AllocError> {
    let mut text = String::new(alloc);
    write!(text, "{front}")?;
    for _ in 0..count {
        write!(text, "{opening}")?;
    }
    write!(text, "{middle}")?;
    for _ in 0..count {
        write!(text, "{closing}")?;
    }
    Ok(text)
}

#[test]
fn a_hundred_may_be_open(rt: HostRuntime) -> Result<(), Fail> {
    let alloc = rt.alloc();
    for (front, opening, count, middle, closing, wanted, place) in [
        ("part a = ", "(", 100, "drop", ")", Answer::Accepted, 0),
        ("part a = ", "(", 101, "drop", ")", Answer::Syntax, 109),
        ("part a = ", "(", 99, "fwd(1)", ")", Answer::Accepted, 0),
        ("part a = ", "(", 100, "fwd(1)", ")", Answer::Syntax, 112),
        (
            "part a = fwd(1) >> ",
            "(",
            100,
            "drop",
            ")",
            Answer::Accepted,
            0,
        ),
        (
            "part a = if(",
            "not ",
            99,
            "true, drop, drop)",
            "",
            Answer::Accepted,
            0,
        ),
        (
            "part a = if(",
            "not ",
            100,
            "true, drop, drop)",
            "",
            Answer::Syntax,
            408,
        ),
        (
            "part a = if(",
            "not true and ",
            150,
            "true, drop, drop)",
            "",
            Answer::Accepted,
            0,
        ),
        (
            "query q = ",
            "~",
            99,
            "in_atom(true)",
            "",
            Answer::Accepted,
            0,
        ),
        (
            "query q = ",
            "~",
            100,
            "in_atom(true)",
            "",
            Answer::Syntax,
            117,
        ),
        (
            "query q = ",
            "~ in_atom(true) ^ ",
            150,
            "in_atom(true)",
            "",
            Answer::Accepted,
            0,
        ),
        (
            "query q = ",
            "(",
            98,
            "in_group(true, [port])",
            ")",
            Answer::Accepted,
            0,
        ),
        (
            "query q = ",
            "(",
            99,
            "in_group(true, [port])",
            ")",
            Answer::Syntax,
            124,
        ),
        (
            "query q = ",
            "(",
            98,
            "in_group(true, [port of (1)])",
            ")",
            Answer::Syntax,
            132,
        ),
    ] {
        let mut text = nested(alloc, front, opening, count, middle, closing)?;
        write!(text, ";")?;
        assert!(rt; is_answered(alloc, &text, wanted, place), "{text}");
    }
    Ok(())
}

/// This many statements of a sort with this text.
fn statements(alloc: Global, sort: &str, count: u32, body: &str) -> Result<String, AllocError> {
    let mut text = String::new(alloc);
    for number in 0..count {
        write!(text, "{sort} x{number} = {body};\n")?;
    }
    Ok(text)
}

/// Whether this many statements of a sort are accepted, and one more, which breaks other rules too, is one too many.
fn is_full(alloc: Global, sort: &str, count: u32, body: &str) -> Result<bool, AllocError> {
    let mut text = statements(alloc, sort, count, body)?;
    if !is_answered(alloc, &text, Answer::Accepted, 0) {
        return Ok(false);
    }
    let place = text.len();
    write!(text, "{sort} x0 = {body};")?;
    Ok(is_answered(alloc, &text, Answer::Name(NameKind::Many), place))
}

#[test]
fn there_are_1024_parts_at_most(rt: HostRuntime) -> Result<(), Fail> {
    assert!(rt; is_full(rt.alloc(), "part", 1024, "drop")?);
    Ok(())
}

#[test]
fn there_are_256_queries_at_most(rt: HostRuntime) -> Result<(), Fail> {
    assert!(rt; is_full(rt.alloc(), "query", 256, "in_atom(true)")?);
    Ok(())
}

#[test]
fn there_are_256_switches_at_most(rt: HostRuntime) -> Result<(), Fail> {
    let alloc = rt.alloc();
    let mut text = String::new(alloc);
    for number in 0..256u32 {
        write!(text, "switch s{number} = {number} ports 1;\n")?;
    }
    assert!(rt; is_answered(alloc, &text, Answer::Accepted, 0));
    let place = text.len();
    write!(text, "switch s1 = 1 ports 0;")?;
    assert!(rt; is_answered(alloc, &text, Answer::Name(NameKind::Many), place));
    Ok(())
}

#[test]
fn reserved_words_are_no_names(rt: HostRuntime) -> Result<(), Fail> {
    let alloc = rt.alloc();
    let words =
        "switch ports limit link part query remove true false not and or filter mod fwd flood drop \
        identity if of in_atom out_atom in_out_atom in_group out_group in_out_group end_atom";
    for word in words.split(' ') {
        let mut text = String::new(alloc);
        write!(text, "part {word} = drop;")?;
        assert!(rt; is_answered(alloc, &text, Answer::Syntax, 5), "{word}");
        // One letter more makes it a name.
        let mut text = String::new(alloc);
        write!(text, "part {word}s_ = drop;")?;
        assert!(rt; is_answered(alloc, &text, Answer::Accepted, 0), "{word}");
    }
    Ok(())
}

#[test]
fn there_are_4096_ports_at_most(rt: HostRuntime) -> Result<(), Fail> {
    let alloc = rt.alloc();
    let mut text = String::new(alloc);
    write!(text, "switch a = 1 ports 1")?;
    for port in 2..4097u32 {
        write!(text, ", {port}")?;
    }
    write!(text, ";")?;
    assert!(rt; is_answered(alloc, &text, Answer::Accepted, 0));
    write!(text, " switch b = 2 ports ")?;
    let place = text.len();
    write!(text, "1 limit 0;")?;
    assert!(rt; is_answered(alloc, &text, Answer::Name(NameKind::Many), place));
    Ok(())
}

/// The topology as text: of each switch the datapath number, the ports and the limit, and the ends of each link.
fn shown(alloc: Global, topology: &Topology) -> Result<String, AllocError> {
    let mut text = String::new(alloc);
    for switch in topology.switches() {
        write!(text, "{}:", switch.datapath)?;
        for port in &switch.ports {
            write!(text, " {port}")?;
        }
        write!(text, " limit {}; ", switch.limit)?;
    }
    for link in topology.links() {
        write!(
            text,
            "{}.{}-{}.{} ",
            link.first.0, link.first.1, link.second.0, link.second.1
        )?;
    }
    Ok(text)
}

/// Whether the text describes the network that is shown so.
fn is_network(alloc: Global, text: &str, wanted: &str) -> Result<bool, AllocError> {
    match read_document(alloc, text.as_bytes()) {
        Ok(document) => Ok(shown(alloc, &document.topology)?.as_str() == wanted),
        Err(_) => Ok(false),
    }
}

/// Whether the text has these parts, in this order.
fn has_parts(alloc: Global, text: &str, wanted: &[(&str, Policy)]) -> bool {
    let Ok(document) = read_document(alloc, text.as_bytes()) else {
        return false;
    };
    if document.parts.len() != wanted.len() {
        return false;
    }
    for (part, other) in document.parts.iter().zip(wanted) {
        if part.0.bytes() != other.0.as_bytes() {
            return false;
        }
        if part.1 != other.1 {
            return false;
        }
    }
    true
}

#[test]
fn switches_and_links_make_a_topology(rt: HostRuntime) -> Result<(), Fail> {
    let alloc = rt.alloc();
    assert!(rt; is_network(alloc, "part a = drop;", "")?);
    assert!(rt;
        is_network(
            alloc,
            "switch b = 7 ports 9, 2 limit 5; switch a = 0x5 ports 3, 1, 2; link b 2 a 3; link a 2 a 1;",
            "5: 1 2 3 limit 2000; 7: 2 9 limit 5; 5.1-5.2 5.3-7.2 ",
        )?
    );
    Ok(())
}

#[test]
fn parts_have_their_policies(rt: HostRuntime) -> Result<(), Fail> {
    let alloc = rt.alloc();
    assert!(rt; has_parts(alloc, "query q = in_atom(true);", &[]));
    // A sequence binds closer than a union, and parentheses are their own operand.
    let nested = Policy::Seq(vec![in alloc; Policy::Drop, Policy::Flood]?);
    let first = Policy::Seq(vec![in alloc; Policy::Fwd(2), nested, Policy::Identity]?);
    let union = Policy::Union(vec![in alloc; first, Policy::Mod(Field::EthDst, 0x0200_0000_000a)]?);
    let no = Box::new(alloc, Policy::Fwd(4_294_967_040))?;
    let yes = Box::new(alloc, Policy::Drop)?;
    let choice = Policy::If(Pred::Equal(Field::Switch, 7), yes, no);
    assert!(rt;
        has_parts(
            alloc,
            "switch s = 7 ports 1; part z = fwd(2) >> (drop >> flood) >> identity + mod(eth_dst=02:00:00:00:00:0A); \
                part a = if(switch=s, drop, fwd(4294967040));",
            &[("z", union), ("a", choice)],
        )
    );
    Ok(())
}

/// Whether the text's one part lets packets pass by this predicate.
fn has_filter(alloc: Global, text: &str, pred: Pred) -> bool {
    has_parts(alloc, text, &[("a", Policy::Filter(pred))])
}

#[test]
fn filters_have_their_predicates(rt: HostRuntime) -> Result<(), Fail> {
    let alloc = rt.alloc();
    let not = Pred::Not(Box::new(alloc, Pred::Equal(Field::Port, 1))?);
    let all = Pred::And(vec![in alloc; not, Pred::Equal(Field::EthType, 0x0806), Pred::False]?);
    let any = Pred::Or(vec![in alloc; all, Pred::True]?);
    assert!(rt;
        has_filter(
            alloc,
            "part a = filter(not port=1 and eth_type=0x0806 and false or true);",
            any,
        )
    );
    for (text, pred) in [
        (
            "part a = filter(ipv4_dst=10.0.0.99/24);",
            Pred::Prefix(Field::Ipv4Dst, 0x0a00_0000, 24),
        ),
        (
            "part a = filter(ipv4_src=10.0.0.99/0);",
            Pred::Prefix(Field::Ipv4Src, 0, 0),
        ),
        (
            "part a = filter(ipv4_src=10.0.0.99/32);",
            Pred::Prefix(Field::Ipv4Src, 0x0a00_0063, 32),
        ),
        (
            "part a = filter(ipv4_src=10.0.0.99);",
            Pred::Equal(Field::Ipv4Src, 0x0a00_0063),
        ),
        (
            "part a = filter(ipv6_src=1:2:3:4:5:6:7:8);",
            Pred::Wide(
                Field::Ipv6Src,
                0x0001_0002_0003_0004_0005_0006_0007_0008,
                128,
            ),
        ),
        (
            "part a = filter(ipv6_dst=FE8f:0:0:0:0:0:0:1/12);",
            Pred::Wide(
                Field::Ipv6Dst,
                0xfe80_0000_0000_0000_0000_0000_0000_0000,
                12,
            ),
        ),
        (
            "part a = filter(eth_src=00:11:22:aa:BB:ff);",
            Pred::Equal(Field::EthSrc, 0x0011_22aa_bbff),
        ),
    ] {
        assert!(rt; has_filter(alloc, text, pred), "{text}");
    }
    Ok(())
}

/// Whether the groups are one of this field with these values, and the switch.
fn is_grouped(groups: &[Group], field: Field, wanted: &[u64]) -> bool {
    match groups {
        [first, second] => {
            let stated = match &first.values {
                Some(values) => values.as_slice() == wanted,
                None => false,
            };
            stated
                && first.field == field
                && second.field == Field::Switch
                && second.values.is_none()
        }
        _ => false,
    }
}

/// Whether the query is an entry by this predicate, any number of times, without groups.
fn is_repeated_entry(query: &Query, wanted: &Pred) -> bool {
    match query {
        Query::Star(entry) => match &**entry {
            Query::In(pred, groups) => pred == wanted && groups.is_empty(),
            _ => false,
        },
        _ => false,
    }
}

/// Whether the query is a departure of any packet, with a group of these ports and one of switches.
fn is_grouped_departure(query: &Query, ports: &[u64]) -> bool {
    match query {
        Query::Out(Pred::True, groups) => is_grouped(groups, Field::Port, ports),
        _ => false,
    }
}

/// Whether the query is a repeated entry by this predicate, and then a departure with a group of these ports.
fn is_path(query: &Query, wanted: &Pred, ports: &[u64]) -> bool {
    match query {
        Query::Cat(operands) => match operands.as_slice() {
            [first, second] => {
                is_repeated_entry(first, wanted) && is_grouped_departure(second, ports)
            }
            _ => false,
        },
        _ => false,
    }
}

#[test]
fn queries_have_their_operands(rt: HostRuntime) -> Result<(), Fail> {
    let alloc = rt.alloc();
    let text = "switch s = 7 ports 1; part a = drop; \
        query q = in_atom(switch=s)* ^ out_group(true, [port of (9, 2), switch]);";
    let found = match read_document(alloc, text.as_bytes()) {
        Ok(document) => match document.queries.as_slice() {
            [(name, query)] => {
                name.bytes() == b"q".as_slice()
                    && is_path(query, &Pred::Equal(Field::Switch, 7), &[9, 2])
            }
            _ => false,
        },
        Err(_) => false,
    };
    assert!(rt; found);
    Ok(())
}
