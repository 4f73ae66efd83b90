//! What each command does. Most write something of a whole text: of all input, or of a generated document.
ghost use Rattle.std.specs.Prelude.{◌≡◌, ◌^◌, ◌<◌, ◌≤◌, ℕ, IfErr, IfOk, List, None, Option, Some, length};
ghost use Rattle.pq_generate.specs.Generated.{generated_text};
ghost use Rattle.pq_command.specs.Answers.{HasReadFaults, HasWriteFaults, IsAnswer, IsAnswerOn, IsOfText, OnRefusal, streams};
ghost use Rattle.pq_command.specs.Reading.{document_limit};
ghost use Rattle.pq_command.specs.Tasks.{HasSize, IsAnswerTo, OnRefusalTo, OnUnread, task_of};

use crate::compile::install_of;
use crate::inspect::inspected;
use crate::outcome::Outcome;
use crate::reading::{DOCUMENT_LIMIT, INSTALL_LIMIT, Unread, read_whole};
use crate::replay::replayed;
use crate::session::session;
use crate::speak::speak;
use crate::summary::summarized;
use crate::words::Command;
use pq_generate::generate;
use pq_io::{Sink, Source};
use std::alloc::Global;

/// What is written of a whole text.
#[derive(Clone, Copy, Debug, PartialEq, Eq)]
pub(crate) enum Output {
    /// The install of a document.
    Install,
    /// Where packets are after an install and a schedule.
    State,
    /// An install as JSON text.
    Inspection,
    /// How large a document and its install are.
    Summary,
    /// The text itself.
    Text,
}

/// The most bytes of a text of which this is written.
fn limit_of(output: Output) -> usize
    ensures value { result ≡ (task_of output).limit }
    ensures small { result < 2 ^ 32 }
{
    match output {
        Output::Install | Output::Summary | Output::Text => DOCUMENT_LIMIT,
        Output::State | Output::Inspection => INSTALL_LIMIT,
    }
}

/// What is written of a text, or why nothing is.
fn output_of(alloc: Global, output: Output, text: Vec<u8>) -> Result<Vec<u8>, Outcome>
    requires { length text.items ≤ (task_of output).limit }
    ensures ok { IfOk result (λ written. (task_of output).Writes text.items written.items) }
    ensures err { IfErr result (λ outcome. (task_of output).Refuses outcome text.items) }
    ensures of_text { IfErr result IsOfText }
{
    match output {
        Output::Install => install_of(alloc, &text),
        Output::State => replayed(alloc, &text),
        Output::Inspection => inspected(alloc, text),
        Output::Summary => summarized(alloc, &text),
        Output::Text => Ok(text),
    }
}

/// Writes this of a text.
fn answer_on<K: Sink>(alloc: Global, output: Output, text: Vec<u8>, sink: &mut K) -> Outcome
    requires { length text.items ≤ (task_of output).limit }
    ensures answer { (left rest : Option (List ℕ)) → IsAnswerOn (task_of output) text.items result (streams left rest (K.put sink.old) (K.put sink.new)) }
    ensures read_faults { (faults : ℕ) → HasReadFaults result faults faults }
    ensures write_faults { HasWriteFaults result (K.faults sink.old) (K.faults sink.new) }
    ensures refusal { OnRefusal result (sink.new ≡ sink.old) }
{
    match output_of(alloc, output, text) {
        Ok(written) => match sink.write(&written) {
            Ok(()) => Outcome::Done,
            Err(_) => Outcome::WriteFault,
        },
        Err(outcome) => outcome,
    }
}

/// Reads to the end of input and writes this of it.
fn answer_input<S: Source, K: Sink>(
    alloc: Global,
    output: Output,
    source: &mut S,
    sink: &mut K,
) -> Outcome
    ensures answer { IsAnswer (task_of output) None result (streams (S.left source.old) (S.left source.new) (K.put sink.old) (K.put sink.new)) }
    ensures read_faults { HasReadFaults result (S.faults source.old) (S.faults source.new) }
    ensures write_faults { HasWriteFaults result (K.faults sink.old) (K.faults sink.new) }
    ensures refusal { OnRefusal result (sink.new ≡ sink.old) }
{
    match read_whole(alloc, source, limit_of(output)) {
        Ok(text) => answer_on(alloc, output, text, sink),
        Err(Unread::Failed) => Outcome::ReadFault,
        Err(Unread::TooLong) => Outcome::TooLong,
        Err(Unread::Memory) => Outcome::Memory,
    }
}

/// Writes this of the generated document of this many switches.
fn answer_generated<K: Sink>(alloc: Global, output: Output, number: u32, sink: &mut K) -> Outcome
    requires least { 2 ≤ number }
    requires most { number ≤ 64 }
    requires limit { (task_of output).limit ≡ document_limit }
    ensures answer { (left rest : Option (List ℕ))
        → IsAnswerOn (task_of output) (generated_text number) result (streams left rest (K.put sink.old) (K.put sink.new)) }
    ensures read_faults { (faults : ℕ) → HasReadFaults result faults faults }
    ensures write_faults { HasWriteFaults result (K.faults sink.old) (K.faults sink.new) }
    ensures refusal { OnRefusal result (sink.new ≡ sink.old) }
{
    match generate(alloc, number) {
        Ok(text) => answer_on(alloc, output, text, sink),
        Err(_) => Outcome::Memory,
    }
}

/// Does what the command asks for.
pub(crate) fn answer<S: Source, K: Sink>(
    alloc: Global,
    command: Command,
    source: &mut S,
    sink: &mut K,
) -> Outcome
    requires { HasSize command }
    ensures answer { IsAnswerTo command result (streams (S.left source.old) (S.left source.new) (K.put sink.old) (K.put sink.new)) }
    ensures untouched { OnUnread (Some command) (source.new ≡ source.old) }
    ensures read_faults { HasReadFaults result (S.faults source.old) (S.faults source.new) }
    ensures write_faults { HasWriteFaults result (K.faults sink.old) (K.faults sink.new) }
    ensures refusal { OnRefusalTo (Some command) result (sink.new ≡ sink.old) }
{
    match command {
        Command::Compile => answer_input(alloc, Output::Install, source, sink),
        Command::Session => session(alloc, source, sink),
        Command::Replay => answer_input(alloc, Output::State, source, sink),
        Command::Inspect => answer_input(alloc, Output::Inspection, source, sink),
        Command::Summary => answer_input(alloc, Output::Summary, source, sink),
        Command::SummaryOf { number } => answer_generated(alloc, Output::Summary, number, sink),
        Command::Generate { number } => answer_generated(alloc, Output::Text, number, sink),
        Command::Speak { datapath } => speak(alloc, datapath, source, sink),
    }
}
