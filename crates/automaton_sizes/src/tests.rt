//! Automata of queries against a plain evaluation of the same queries, word by word.
ghost use Rattle.std.specs.Prelude.{◌≡◌, ◌≤◌, ◌<◌, length, IfOk};

use crate::automata::automaton_of;
use crate::letters::{at_places, packet_at};
use crate::long_queries::{complements, streams};
use crate::plain::holds_word;
use crate::queries::{at_port, in_atom, joined, out_atom, repeated, without};
use pq_fields::Packet;
use pq_min::Classes;
use pq_query::Query;
use std::alloc::{AllocError, Global};
use std::marker::Brand;
use std::sync::ledger::Blank;
use std::test::Fail;

/// `in_atom(port=1) ^ ~in_atom(port=2)`.
fn complement_behind(alloc: Global) -> Result<Query, AllocError> {
    let other = without(alloc, in_atom(alloc, at_port(2)))?;
    joined(alloc, in_atom(alloc, at_port(1)), other)
}

/// `(in_atom(port=1) ^ in_atom(port=2))*`.
fn pairs_repeated(alloc: Global) -> Result<Query, AllocError> {
    let pair = joined(
        alloc,
        in_atom(alloc, at_port(1)),
        in_atom(alloc, at_port(2)),
    )?;
    repeated(alloc, pair)
}

/// `out_atom(port=1) & ~in_out_atom(port=2, port=1)`.
fn sent_without_passing(alloc: Global) -> Result<Query, AllocError> {
    let passing = Query::InOut(at_port(2), Vec::new(alloc), at_port(1), Vec::new(alloc));
    let mut operands = Vec::new(alloc);
    operands.push(out_atom(alloc, at_port(1)))?;
    operands.push(without(alloc, passing)?)?;
    Ok(Query::And(operands))
}

/// The word of a number from 1 to 31: after the first of its binary digits, the last one names the first of the packets, and
/// so on.
fn word_of(alloc: Global, number: u32, packets: &[Packet; 2]) -> Result<Vec<Packet>, AllocError>
    ensures { IfOk result (λ w. length w.items ≤ 4) }
{
    let mut word = Vec::new(alloc);
    let mut left = number;
    for _ in 0..4usize {
        if 1 < left {
            word.push(packets[(left % 2) as usize])?;
            left /= 2;
        }
    }
    Ok(word)
}

/// Whether the automaton says that an instance holds the word of this number.
fn is_accepted(classes: &Classes, number: u32) -> bool
    requires { classes.now.letters ≡ 2 }
{
    if classes.count() == 0 {
        return false;
    }
    let mut class = 0;
    let mut left = number;
    for _ in 0..4usize {
        if 1 < left {
            class = classes.next(class, u64::from(left % 2));
            left /= 2;
        }
    }
    !classes.accepted(class).is_empty()
}

/// Whether the automaton says of each word of at most four letters what the plain evaluation of the query says.
fn says_same(
    alloc: Global,
    query: &Query,
    classes: &Classes,
    packets: &[Packet; 2],
) -> Result<bool, AllocError>
    requires { classes.now.letters ≡ 2 }
{
    for number in 1..32u32 {
        let word = word_of(alloc, number, packets)?;
        if holds_word(query, &word) != is_accepted(classes, number) {
            return Ok(false);
        }
    }
    Ok(true)
}

/// Whether the automaton of the query, whose letters are the packets at these two ports, says what the plain evaluation says.
/// The query is given twice.
fn is_told(
    alloc: Global,
    query: Query,
    same: &Query,
    ports: (u32, u32),
) -> Result<bool, AllocError> {
    let packets = [packet_at(0, ports.0), packet_at(0, ports.1)];
    let automaton = automaton_of::<Brand>(alloc, Blank::new(1), query, &packets)?;
    says_same(alloc, same, &automaton.classes, &packets)
}

#[test]
fn complements_behind_a_packet_are_told(rt: HostRuntime) -> Result<(), Fail> {
    let alloc = rt.alloc();
    for ports in [(1, 2), (0, 1)] {
        assert!(rt;
            is_told(
                alloc,
                complement_behind(alloc)?,
                &complement_behind(alloc)?,
                ports
            )?
        );
    }
    Ok(())
}

#[test]
fn repeated_pairs_are_told(rt: HostRuntime) -> Result<(), Fail> {
    let alloc = rt.alloc();
    for ports in [(1, 2), (0, 1)] {
        assert!(rt;
            is_told(
                alloc,
                pairs_repeated(alloc)?,
                &pairs_repeated(alloc)?,
                ports
            )?
        );
    }
    Ok(())
}

#[test]
fn packets_sent_are_told(rt: HostRuntime) -> Result<(), Fail> {
    let alloc = rt.alloc();
    for ports in [(1, 2), (0, 1)] {
        assert!(rt;
            is_told(
                alloc,
                sent_without_passing(alloc)?,
                &sent_without_passing(alloc)?,
                ports
            )?
        );
    }
    Ok(())
}

/// How many classes the automaton of the query has, whose letters are the packets at ports 0 and 1.
fn class_count(alloc: Global, query: Query) -> Result<u64, AllocError> {
    let packets = at_places(alloc, 2, 2)?;
    let automaton = automaton_of::<Brand>(alloc, Blank::new(1), query, &packets)?;
    Ok(automaton.classes.count())
}

/// A document has room for this many `in_atom(true)*`, joined by `^`.
#[test]
fn the_longest_chain_has_three_classes(rt: HostRuntime) -> Result<(), Fail> {
    let alloc = rt.alloc();
    let query = streams(alloc, 34_950)?;
    assert!(rt; class_count(alloc, query)? == 3);
    Ok(())
}

#[test]
fn a_hundred_complements_have_the_classes_of_none(rt: HostRuntime) -> Result<(), Fail> {
    let alloc = rt.alloc();
    let query = complements(alloc, 100)?;
    assert!(rt; class_count(alloc, query)? == class_count(alloc, complements(alloc, 0)?)?);
    Ok(())
}
