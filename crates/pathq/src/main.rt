//! pathq compiles path queries for OpenFlow 1.3 networks: it reads standard input and writes standard output.
#![tactic(auto)]

ghost use Rattle.std.specs.Prelude.{◌≡◌, ◌⊎◌, IfErr, IfOk, IsErr, IsOk, drop};
ghost use Rattle.std.specs.Vec.Iter.{into_iter_items};

use pq_command::{Outcome, run};
use pq_io::{StreamSink, StreamSource};
use std::alloc::Global;
use std::env::{self, Args};
use std::io;
use std::process::ExitCode;

/// The words after the program's name, or the outcome where they can't be had: words that are not text name no command.
fn words_of(args: io::Result<Args>, alloc: Global) -> Result<Vec<String>, Outcome>
    ensures ok { IfOk result (λ words. IsOk args × IfOk args (λ a. words.items ≡ drop 1 (into_iter_items a))) }
    ensures err { IfErr result (λ outcome. (outcome ≡ Outcome.Memory) ⊎ ((outcome ≡ Outcome.Words) × IsErr args)) }
{
    let mut args = match args {
        Ok(args) => args,
        Err(error) if error.kind() == io::ErrorKind::OutOfMemory => return Err(Outcome::Memory),
        Err(_) => return Err(Outcome::Words),
    };
    let _program = args.next();
    let mut words = Vec::new(alloc);
    for word in args {
        match words.push(word) {
            Ok(()) => {}
            Err(_) => return Err(Outcome::Memory),
        }
    }
    Ok(words)
}

fn main(rt: HostRuntime) -> ExitCode {
    let alloc = rt.alloc();
    let outcome = match words_of(env::args(&rt), alloc) {
        Ok(words) => {
            let mut source = StreamSource::new(rt.stdin());
            let mut sink = StreamSink::new(io::writer(&rt));
            run(alloc, &words, &mut source, &mut sink)
        }
        Err(outcome) => outcome,
    };
    if let Ok(line) = outcome.line(alloc) {
        if !line.is_empty() {
            let _ = rt.eprintln(line);
        }
    }
    ExitCode::from(outcome.code())
}
