//! Lines that say how large automata are.
ghost use Rattle.std.specs.Prelude.{◌<◌};

use crate::automata::automaton_of;
use crate::letters::at_places;
use pq_min::Classes;
use pq_query::Query;
use std::alloc::{AllocError, Global};
use std::fmt::Write;
use std::marker::Brand;
use std::sync::ledger::Blank;

/// How many rows of a report a line shows.
const SHOWN: u64 = 4;

/// The line of a query: its name, how many states and classes its automaton has, and its report. The letters are the packets
/// at the first places, this many, where each switch has this many ports.
///
/// A row of the report is the tag of a class, which is the class's number and 1, with the instances that hold the words of the
/// class; a class without instances has no row. Of a long report only the first rows are shown, and how many more there are.
pub(crate) fn line(
    alloc: Global,
    name: &str,
    query: Query,
    count: u32,
    ports: u32,
) -> Result<String, AllocError>
    requires { 0 < ports }
{
    let packets = at_places(alloc, count, ports)?;
    let automaton = automaton_of::<Brand>(alloc, Blank::new(1), query, &packets)?;
    let rows = report(alloc, &automaton.classes)?;
    format!(in alloc;
        "{name}: {} states, {} classes, report{rows}",
        automaton.states,
        automaton.classes.count()
    )
}

/// The first rows of the report, and how many more there are.
fn report(alloc: Global, classes: &Classes) -> Result<String, AllocError> {
    let mut text = String::new(alloc);
    let mut rows: u64 = 0;
    for class in 0..classes.count() {
        let instances = classes.accepted(class);
        if !instances.is_empty() {
            if rows < SHOWN {
                write!(text, " {} {instances:?}", class + 1)?;
            }
            rows += 1;
        }
    }
    if SHOWN < rows {
        write!(text, " and {} more", rows - SHOWN)?;
    }
    Ok(text)
}
