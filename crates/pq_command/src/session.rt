//! The command `session`: it writes the install of a document, and then what each edit of the document changes in the tables.
ghost use Rattle.std.specs.Prelude.{◌≡◌};
ghost use Rattle.pq_command.specs.Answers.{HasReadFaults, HasWriteFaults, OnRefusalInSession, streams};
ghost use Rattle.pq_command.specs.Sessions.{IsSessionAnswer};

mod changes;
mod course;
mod frames;
mod opening;
mod steps;

use crate::outcome::Outcome;
use crate::session::course::Course;
use pq_io::{Sink, Source};
use std::alloc::Global;

/// Reads a document and then edits, in pieces, and writes a frame for each piece before it reads the next one.
pub(crate) fn session<S: Source, K: Sink>(alloc: Global, source: &mut S, sink: &mut K) -> Outcome
    ensures answer { IsSessionAnswer result (streams (S.left source.old) (S.left source.new) (K.put sink.old) (K.put sink.new)) }
    ensures read_faults { HasReadFaults result (S.faults source.old) (S.faults source.new) }
    ensures write_faults { HasWriteFaults result (K.faults sink.old) (K.faults sink.new) }
    ensures refusal { OnRefusalInSession result (sink.new ≡ sink.old) }
{
    let mut course = match Course::start(alloc, source, sink) {
        Ok(course) => course,
        Err(outcome) => return outcome,
    };
    course.go_on(alloc, source, sink)
}
