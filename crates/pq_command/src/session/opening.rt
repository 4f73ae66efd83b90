//! The first piece of a session.
ghost use Rattle.std.specs.Prelude.{◌≤◌, IfErr, IfOk, length};
ghost use Rattle.pq_compile.specs.Documents.{Spells};
ghost use Rattle.pq_command.specs.Answers.{IsOfText};
ghost use Rattle.pq_command.specs.Compiles.{HasNoInstall};
ghost use Rattle.pq_command.specs.Reading.{document_limit};

use crate::compile::{document_of, outcome_of};
use crate::outcome::Outcome;
use pq_engine::Engine;
use std::alloc::Global;

/// The engine of the document that a text spells, or why there is none: the text's first fault, or the first limit that the document
/// goes beyond.
pub(crate) fn engine_of(alloc: Global, text: &[u8]) -> Result<Engine, Outcome>
    requires { length text.now ≤ document_limit }
    ensures spelled { IfOk result (λ engine. Spells text.now engine.document) }
    ensures err { IfErr result (λ outcome. HasNoInstall outcome text.now) }
    ensures of_text { IfErr result IsOfText }
{
    let document = match document_of(alloc, text) {
        Ok(document) => document,
        Err(outcome) => return Err(outcome),
    };
    match Engine::open(alloc, document) {
        Ok(engine) => Ok(engine),
        Err(fault) => Err(outcome_of(fault)),
    }
}
