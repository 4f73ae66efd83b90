//! The command `speak`: it installs what an install states for one switch, over the switch's control connection.
ghost use Rattle.std.specs.Prelude.{◌≡◌};
ghost use Rattle.pq_command.specs.Answers.{HasReadFaults, HasWriteFaults, OnRefusalInTurns, streams};
ghost use Rattle.pq_command.specs.Speaks.{IsSpeakAnswer};

mod conversation;
mod heading;
mod opening;

use crate::outcome::Outcome;
use crate::speak::conversation::Conversation;
use pq_io::{Sink, Source};
use std::alloc::Global;

/// Speaks for the switch with this datapath number: reads what is to be installed, and then answers the switch until it has
/// carried that out and the input ends, or until the session fails.
pub(crate) fn speak<S: Source, K: Sink>(
    alloc: Global,
    datapath: u64,
    source: &mut S,
    sink: &mut K,
) -> Outcome
    ensures answer { IsSpeakAnswer datapath result (streams (S.left source.old) (S.left source.new) (K.put sink.old) (K.put sink.new)) }
    ensures read_faults { HasReadFaults result (S.faults source.old) (S.faults source.new) }
    ensures write_faults { HasWriteFaults result (K.faults sink.old) (K.faults sink.new) }
    ensures refusal { OnRefusalInTurns result (sink.new ≡ sink.old) }
{
    match Conversation::start(alloc, datapath, source, sink) {
        Ok(conversation) => conversation.go_on(alloc, source, sink),
        Err(outcome) => outcome,
    }
}
