//! How large the automata of worked queries are, and which classes of words their instances hold.
#![tactic(auto)]

mod atom_count;
mod automata;
mod letters;
mod lines;
mod long_queries;
#[cfg(test)]
mod plain;
mod queries;
#[cfg(test)]
mod tests;

use lines::line;
use long_queries::{chain, grouped_atom, streams, union, waypoints};
use pq_fields::Pred;
use queries::{in_atom, joined, out_atom};
use std::alloc::{AllocError, Global};
use std::io;

/// Adds the lines of queries of few atoms, over the packets at switches and ports 0 to 3.
fn add_small(alloc: Global, lines: &mut Vec<String>) -> Result<(), AllocError> {
    lines.push(line(alloc, "zero repeats", queries::zero_repeats(alloc)?, 16, 4)?)?;
    lines.push(line(alloc, "complement", queries::complement(alloc)?, 16, 4)?)?;
    lines.push(line(alloc, "labels", queries::labels(alloc)?, 16, 4)?)?;
    lines.push(line(alloc, "a loop", queries::a_loop(alloc)?, 16, 4)?)?;
    lines.push(line(alloc, "two packets", queries::two_packets(alloc)?, 16, 4)?)?;
    lines.push(line(alloc, "a dropped packet", queries::dropped(), 16, 4)?)?;
    Ok(())
}

/// Adds the lines of long chains, of a query with 1,024 instances, and of twenty chains of which any is held.
fn add_long(alloc: Global, lines: &mut Vec<String>) -> Result<(), AllocError> {
    let narrow = chain(alloc, 2045, in_atom(alloc, Pred::True))?;
    lines.push(line(alloc, "tag width", narrow, 2, 2)?)?;
    let wide = chain(alloc, 2045, out_atom(alloc, Pred::True))?;
    lines.push(line(alloc, "tag width, one more", wide, 2, 2)?)?;
    let first = grouped_atom(alloc)?;
    let second = grouped_atom(alloc)?;
    let grouped = joined(alloc, first, second)?;
    lines.push(line(alloc, "instances", grouped, 34, 34)?)?;
    lines.push(line(alloc, "a union", union(alloc, 20)?, 8, 8)?)?;
    lines.push(line(alloc, "1,000 repetitions", streams(alloc, 1000)?, 2, 2)?)?;
    Ok(())
}

/// Adds the lines of waypoints, over the packets at switches 0 to 12.
fn add_waypoints(alloc: Global, lines: &mut Vec<String>) -> Result<(), AllocError> {
    lines.push(line(alloc, "3 waypoints", waypoints(alloc, 3)?, 13, 1)?)?;
    lines.push(line(alloc, "6 waypoints", waypoints(alloc, 6)?, 13, 1)?)?;
    lines.push(line(alloc, "9 waypoints", waypoints(alloc, 9)?, 13, 1)?)?;
    lines.push(line(alloc, "12 waypoints", waypoints(alloc, 12)?, 13, 1)?)?;
    Ok(())
}

fn main(rt: HostRuntime) -> io::Result<()> {
    let alloc = rt.alloc();
    let mut lines = Vec::new(alloc);
    add_small(alloc, &mut lines)?;
    add_long(alloc, &mut lines)?;
    add_waypoints(alloc, &mut lines)?;
    for line in lines {
        println!(rt; "{line}")?;
    }
    Ok(())
}
