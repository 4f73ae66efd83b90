ghost use Rattle.std.specs.Prelude.{◌≡◌, ◌↔◌, None, Some, map};
ghost use Rattle.std.specs.String.{string_bytes};
ghost use Rattle.pq_command.specs.Answers.{
  HasNoFault,
  HasReadFaults,
  HasWriteFaults,
  streams,
};
ghost use Rattle.pq_command.specs.Tasks.{CompletesAs, IsAnswerTo, OnRefusalTo, OnUnread};
ghost use Rattle.pq_command.specs.Words.{command_of};

use crate::answer::answer;
use crate::outcome::Outcome;
use crate::words::Command;
use pq_io::{Sink, Source};
use std::alloc::Global;

/// Does what the words after the program's name ask for, from the source to the sink.
///
/// `compile` reads a document to its end and writes its install. `session` reads pieces that lines `%%` part, a document and then an
/// edit each; it writes a frame for each piece before it reads the next one, and at the end the last install. `replay` reads an install and at once after it a
/// schedule, and writes where every packet is. `inspect` reads an install and writes it as JSON text. `summary` reads a
/// document and writes how large it and its install are. `generate N` writes the document of a row of N switches, 2 to 64, and
/// `summary N` the summary of that document; both read nothing. `speak D` reads a line with the length of an install, the install,
/// and what the switch with the datapath number D sends, and writes what installs the messages to it, a piece at a time.
pub fn run<S: Source, K: Sink>(
    alloc: Global,
    words: &[String],
    source: &mut S,
    sink: &mut K,
) -> Outcome
    ensures words { (result ≡ Outcome.Words) ↔ (command_of (map string_bytes words.now) ≡ None) }
    ensures untouched { OnUnread (command_of (map string_bytes words.now)) (source.new ≡ source.old) }
    ensures answers { (command : Command) → command_of (map string_bytes words.now) ≡ Some command
        → IsAnswerTo command result (streams (S.left source.old) (S.left source.new) (K.put sink.old) (K.put sink.new)) }
    ensures read_faults { HasReadFaults result (S.faults source.old) (S.faults source.new) }
    ensures write_faults { HasWriteFaults result (K.faults sink.old) (K.faults sink.new) }
    ensures refusal { OnRefusalTo (command_of (map string_bytes words.now)) result (sink.new ≡ sink.old) }
    ensures completes { (command : Command) → command_of (map string_bytes words.now) ≡ Some command
        → HasNoFault (S.faults source.old) (S.faults source.new) → HasNoFault (K.faults sink.old) (K.faults sink.new)
        → CompletesAs command (S.left source.old) result }
{
    match Command::of_words(words) {
        Some(command) => answer(alloc, command, source, sink),
        None => Outcome::Words,
    }
}
