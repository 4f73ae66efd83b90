//! The later pieces of a session, an edit each.
ghost use Rattle.std.specs.Prelude.{◌≡◌, ◌≢◌, ◌<◌, ◌≤◌, IfErr, IfOk, OnErr, OnOk, length, map};
ghost use Rattle.pq_delta.specs.Delta.{AreShort, delta};
ghost use Rattle.pq_compile.specs.Compiled.{IsCompileFault, IsInstalled};
ghost use Rattle.pq_compile.specs.Documents.{document_tree};
ghost use Rattle.pq_compile.specs.Prepared.{IsCompilable};
ghost use Rattle.pq_edit.specs.Edits.{IsLawfulEdit, edit_tree, edited};
ghost use Rattle.pq_edit.specs.Reading.{SpellsEdit};
ghost use Rattle.pq_command.specs.Compiles.{IsLimitFault};
ghost use Rattle.pq_command.specs.Frames.{change_frame};
ghost use Rattle.pq_command.specs.Reading.{document_limit};
ghost use Rattle.pq_command.specs.Sessions.{AreLawfulChanges, HasNoEdit, IsAccepted, IsEditTextFault, IsStep, current_of};

use crate::compile::outcome_of;
use crate::outcome::Outcome;
use crate::session::changes::change_frame;
use crate::session::frames::refusal_frame;
use pq_compile::{CompileFault, Document, DocumentFault};
use pq_edit::{Edit, edits_that_are_read_are_lawful, read_edit_text};
use pq_engine::Engine;
use pq_flowmod::Message;
use pq_io::Steps;
use pq_turning::deltas_of_documents_are_lawful;
use std::alloc::{AllocError, Global};
use std::marker::Brand;
use std::sync::ledger::{Blank, Ledger};

/// The edit of a document that a text of at most 524,288 bytes spells, or the text's first fault.
fn edit_of(alloc: Global, document: &Document, text: &[u8]) -> Result<Edit, Outcome>
    requires short { length text.now ≤ document_limit }
    requires compilable { IsCompilable (document_tree document.now) }
    ensures spelled { IfOk result (λ edit. SpellsEdit text.now (document_tree document.now) (edit_tree edit)) }
    ensures lawful { IfOk result (λ edit. IsLawfulEdit (document_tree document.now) (edit_tree edit)) }
    ensures err { IfErr result (λ outcome. IsEditTextFault outcome (document_tree document.now) text.now) }
{
    edits_that_are_read_are_lawful();
    match read_edit_text(alloc, text, document) {
        Ok(edit) => Ok(edit),
        Err(DocumentFault::Lex { at }) => Err(Outcome::Lex { at }),
        Err(DocumentFault::Syntax { at }) => Err(Outcome::Syntax { at }),
        Err(DocumentFault::Name { at, kind }) => Err(Outcome::Name { at, kind }),
        Err(DocumentFault::Memory) => Err(Outcome::Memory),
    }
}

/// Makes an edit, with counters of its work that nobody reads.
fn counted<L: Ledger, M: Ledger>(
    alloc: Global,
    engine: &mut Engine,
    edit: Edit,
    first: Blank,
    second: Blank,
) -> Result<Vec<(u64, Vec<Message>)>, CompileFault>
    requires first_name { first.name ≡ L.name }
    requires first_parts { first.parts ≡ L.parts }
    requires first_some { 0 < first.parts }
    requires second_name { second.name ≡ M.name }
    requires second_parts { second.parts ≡ M.parts }
    requires second_some { 0 < second.parts }
    requires lawful { IsLawfulEdit engine.old.document (edit_tree edit) }
    ensures edited { OnOk result (engine.new.document ≡ edited engine.old.document (edit_tree edit)) }
    ensures delta { IfOk result (λ changed. map (λ p. (p.0, p.1.items)) changed.items ≡ delta engine.old.install engine.new.install) }
    ensures few { IfOk result (λ changed. AreShort (map (λ p. (p.0, p.1.items)) changed.items)) }
    ensures kept { OnErr result (engine.new ≡ engine.old) }
    ensures cause { IfErr result (IsCompileFault (edited engine.old.document (edit_tree edit))) }
{
    let (book, share) = first.open();
    let mut unions: Steps<L> = Steps::start(book, share);
    let (book, share) = second.open();
    let mut derivations: Steps<M> = Steps::start(book, share);
    engine.edit(alloc, edit, &mut unions, &mut derivations)
}

/// Makes an edit; gives for each switch whose tables change its datapath number and the messages that change them.
fn changes_of(
    alloc: Global,
    engine: &mut Engine,
    edit: Edit,
) -> Result<Vec<(u64, Vec<Message>)>, CompileFault>
    requires { IsLawfulEdit engine.old.document (edit_tree edit) }
    ensures edited { OnOk result (engine.new.document ≡ edited engine.old.document (edit_tree edit)) }
    ensures installed { OnOk result (IsInstalled engine.new.document engine.new.install) }
    ensures delta { IfOk result (λ changed. map (λ p. (p.0, p.1.items)) changed.items ≡ delta engine.old.install engine.new.install) }
    ensures lawful { IfOk result (λ changed. AreLawfulChanges (map (λ p. (p.0, p.1.items)) changed.items)) }
    ensures kept { OnErr result (engine.new ≡ engine.old) }
    ensures cause { IfErr result (IsCompileFault (edited engine.old.document (edit_tree edit))) }
{
    deltas_of_documents_are_lawful();
    engine.install();
    let changed = match counted::<Brand, Brand>(alloc, engine, edit, Blank::new(1), Blank::new(1)) {
        Ok(changed) => changed,
        Err(fault) => return Err(fault),
    };
    engine.install();
    Ok(changed)
}

/// Makes an edit; gives the frame of what changes, or the first limit that the edited document goes beyond.
fn changed(alloc: Global, engine: &mut Engine, edit: Edit) -> Result<Vec<u8>, Outcome>
    requires { IsLawfulEdit engine.old.document (edit_tree edit) }
    ensures edited { OnOk result (engine.new.document ≡ edited engine.old.document (edit_tree edit)) }
    ensures installed { OnOk result (IsInstalled engine.new.document engine.new.install) }
    ensures framed { IfOk result (λ bytes. bytes.items ≡ change_frame (delta engine.old.install engine.new.install)) }
    ensures kept { IfErr result (λ outcome. outcome ≢ Outcome.Memory → engine.new ≡ engine.old) }
    ensures err { IfErr result (λ outcome. IsLimitFault outcome (edited engine.old.document (edit_tree edit))) }
{
    let changed = match changes_of(alloc, engine, edit) {
        Ok(changed) => changed,
        Err(fault) => return Err(outcome_of(fault)),
    };
    match change_frame(alloc, &changed) {
        Ok(bytes) => Ok(bytes),
        Err(_) => Err(Outcome::Memory),
    }
}

/// Makes the edit that a piece spells; gives the frame of what changes, or why there is no edit.
fn accepted(alloc: Global, engine: &mut Engine, piece: &[u8]) -> Result<Vec<u8>, Outcome>
    requires { length piece.now ≤ document_limit }
    ensures accepted { IfOk result (λ bytes. IsAccepted (current_of engine.old) piece.now bytes.items (current_of engine.new)) }
    ensures kept { IfErr result (λ outcome. outcome ≢ Outcome.Memory → engine.new ≡ engine.old) }
    ensures err { IfErr result (λ outcome. HasNoEdit outcome engine.old.document piece.now) }
{
    let edit = match edit_of(alloc, engine.document(), piece) {
        Ok(edit) => edit,
        Err(outcome) => return Err(outcome),
    };
    match changed(alloc, engine, edit) {
        Ok(bytes) => Ok(bytes),
        Err(outcome) => Err(outcome),
    }
}

/// Judges a piece as an edit and makes that; gives the frame for it.
pub(crate) fn step(alloc: Global, engine: &mut Engine, piece: &[u8]) -> Result<Vec<u8>, AllocError>
    requires { length piece.now ≤ document_limit }
    ensures { IfOk result (λ bytes. IsStep (current_of engine.old) piece.now bytes.items (current_of engine.new)) }
{
    let outcome = match accepted(alloc, engine, piece) {
        Ok(bytes) => return Ok(bytes),
        Err(outcome) => outcome,
    };
    match outcome {
        Outcome::Memory => Err(AllocError),
        _ => {
            let bytes = refusal_frame(alloc, outcome)?;
            Ok(bytes)
        }
    }
}
