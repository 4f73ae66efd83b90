//! The frames that a session writes.
ghost use Rattle.std.specs.Prelude.{◌≡◌, IfErr, IfOk, OnErr, OnOk};
ghost use Rattle.std.specs.Io.KnownBytes.{Appends};
ghost use Rattle.pq_io.specs.Faults.{Rose};
ghost use Rattle.pq_io.specs.Pieces.{AppendsPart};
ghost use Rattle.pq_model.specs.Install.{IsLawfulInstall};
ghost use Rattle.pq_command.specs.Answers.{HasWriteFaults};
ghost use Rattle.pq_command.specs.Frames.{frame, install_frame, refusal_frame};
ghost use Rattle.pq_command.specs.Sessions.{IsCut};

use crate::compile::spelled;
use crate::outcome::Outcome;
use pq_install::Install;
use pq_io::Sink;
use std::alloc::{AllocError, Global};

/// A frame: the byte of its kind, the length of its content in eight bytes, and its content.
pub(crate) fn framed(alloc: Global, kind: u8, content: &[u8]) -> Result<Vec<u8>, AllocError>
    ensures { IfOk result (λ bytes. bytes.items ≡ frame kind content.now) }
{
    let mut bytes = Vec::new(alloc);
    bytes.push(kind)?;
    bytes.extend_from_slice(&content.len().to_be_bytes())?;
    bytes.extend_from_slice(content)?;
    Ok(bytes)
}

/// The frame of a refusal: its line.
pub(crate) fn refusal_frame(alloc: Global, outcome: Outcome) -> Result<Vec<u8>, AllocError>
    ensures { IfOk result (λ bytes. bytes.items ≡ refusal_frame outcome) }
{
    let line = outcome.line(alloc)?;
    framed(alloc, b'R', line.as_bytes())
}

/// The frame of an install: its bytes.
fn install_frame(alloc: Global, install: &Install) -> Result<Vec<u8>, AllocError>
    requires { IsLawfulInstall install.now }
    ensures { IfOk result (λ bytes. bytes.items ≡ install_frame install.now) }
{
    let content = spelled(alloc, install)?;
    framed(alloc, b'I', &content)
}

/// Writes a frame.
pub(crate) fn put<K: Sink>(frame: &[u8], sink: &mut K) -> Result<(), Outcome>
    ensures whole { OnOk result (Appends (K.put sink.old) (K.put sink.new) frame.now) }
    ensures cut { IfErr result (λ outcome. IsCut outcome (K.put sink.old) (K.put sink.new) frame.now) }
    ensures kept { OnOk result (K.faults sink.new ≡ K.faults sink.old) }
    ensures faults { IfErr result (λ outcome. HasWriteFaults outcome (K.faults sink.old) (K.faults sink.new)) }
{
    match sink.write(frame) {
        Ok(()) => Ok(()),
        Err(_) => Err(Outcome::WriteFault),
    }
}

/// Writes the frame of an install.
pub(crate) fn put_install<K: Sink>(
    alloc: Global,
    install: &Install,
    sink: &mut K,
) -> Result<(), Outcome>
    requires { IsLawfulInstall install.now }
    ensures whole { OnOk result (Appends (K.put sink.old) (K.put sink.new) (install_frame install.now)) }
    ensures cut { IfErr result (λ outcome. IsCut outcome (K.put sink.old) (K.put sink.new) (install_frame install.now)) }
    ensures kept { OnOk result (K.faults sink.new ≡ K.faults sink.old) }
    ensures faults { IfErr result (λ outcome. HasWriteFaults outcome (K.faults sink.old) (K.faults sink.new)) }
{
    match install_frame(alloc, install) {
        Ok(frame) => put(&frame, sink),
        Err(_) => Err(Outcome::Memory),
    }
}
