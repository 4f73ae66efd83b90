//! What a text says is to be installed in a switch.
ghost use Rattle.std.specs.Prelude.{◌≡◌, ◌<◌, ◌≤◌, ◌==◌, All, IfErr, IfOk, IfSome, MatchOption, OnOk, drop, false, length, position, take, true};
ghost use Rattle.pq_model.specs.Install.{IsLawfulInstall, messages_of};
ghost use Rattle.pq_model.specs.Lawful.{IsLawfulMessage};
ghost use Rattle.pq_speaker.specs.Speaking.{EndsWithOwnBarrier};
ghost use Rattle.pq_command.specs.Speaks.{Bars, IsDamagedFor, IsOpened, IsSpelling, has_switch, session_of};

use crate::outcome::Outcome;
use crate::speak::heading::{Heading, heading_of};
use pq_install::{Install, InstallFault, read_install};
use pq_speaker::{Message, ends_with_own_barrier};
use pq_topo::Switch;
use std::alloc::Global;

/// What is to be installed in a switch.
#[derive(Drop)]
pub(crate) struct Opening {
    pub(crate) messages: Vec<Message>,
    /// Where the bytes of the switch begin.
    pub(crate) at: usize,
}

/// The install that all these bytes are, where they are as many as stated.
fn install_in(alloc: Global, size: usize, bytes: &[u8]) -> Result<Install, Outcome>
    requires { length bytes.now ≤ size }
    ensures whole { OnOk result (length bytes.now ≡ size) }
    ensures install { IfOk result (λ i. IsSpelling i bytes.now) }
    ensures lawful { IfOk result IsLawfulInstall }
    ensures err { IfErr result (λ outcome. IsDamagedFor size bytes.now outcome) }
{
    match read_install(alloc, bytes) {
        Ok((install, read)) if read == size => Ok(install),
        Ok((_, read)) => Err(Outcome::Damaged { at: read }),
        Err(InstallFault::Damaged { at }) => Err(Outcome::Damaged { at }),
        Err(InstallFault::Memory) => Err(Outcome::Memory),
    }
}

/// The place of the switch with this datapath number.
fn place_of(datapath: u64, switches: &[Switch]) -> Option<usize>
    ensures place { result ≡ position (λ s. s.datapath == datapath) switches.now }
    ensures within { IfSome result (λ k. k < length switches.now) }
{
    switches
        .iter()
        .position(|switch| switch.datapath == datapath)
}

/// The messages to the switch with this datapath number, where the install has it.
fn messages_to(datapath: u64, install: Install) -> Option<Vec<Message>>
    requires { IsLawfulInstall install }
    ensures messages { MatchOption result (has_switch datapath install ≡ false)
        (λ ms. (has_switch datapath install ≡ true) × (ms.items ≡ messages_of install datapath)) }
    ensures lawful { IfSome result (λ ms. All IsLawfulMessage ms.items) }
{
    let Some(place) = place_of(datapath, install.topology.switches()) else {
        return None;
    };
    let mut lists = install.messages;
    Some(lists.swap_remove(place))
}

/// The bytes in place of an install: as many as the line states, or all that follow it.
fn install_bytes(heading: Heading, text: &[u8]) -> &[u8]
    requires { heading.at ≤ length text.now }
    ensures bytes { result.now ≡ take heading.size (drop heading.at text.now) }
    ensures short { length result.now ≤ heading.size }
{
    let rest = &text[heading.at..];
    &rest[..rest.len().min(heading.size)]
}

/// What the text says is to be installed in the switch with this datapath number, or why nothing is.
pub(crate) fn opening_of(alloc: Global, datapath: u64, text: &[u8]) -> Result<Opening, Outcome>
    ensures opened { IfOk result (λ o. IsOpened datapath text.now (session_of datapath o.messages.items) (drop o.at text.now)) }
    ensures lawful { IfOk result (λ o. All IsLawfulMessage o.messages.items) }
    ensures ended { IfOk result (λ o. EndsWithOwnBarrier o.messages.items) }
    ensures within { IfOk result (λ o. o.at ≤ length text.now) }
    ensures err { IfErr result (λ outcome. Bars datapath outcome text.now) }
{
    let Some(heading) = heading_of(text) else {
        return Err(Outcome::Syntax { at: 0 });
    };
    let install = match install_in(alloc, heading.size, install_bytes(heading, text)) {
        Ok(install) => install,
        Err(outcome) => return Err(outcome),
    };
    let Some(messages) = messages_to(datapath, install) else {
        return Err(Outcome::NoSwitch);
    };
    if !ends_with_own_barrier(&messages) {
        return Err(Outcome::NoBarrier);
    }
    Ok(Opening {
        messages,
        at: heading.at + heading.size,
    })
}
