ghost use Rattle.std.specs.Prelude.{◌≡◌, ◌++◌, All, IfOk, OnOk};
ghost use Rattle.pq_model.specs.declared.action.Action.TheVariants.{Group, Output};
ghost use Rattle.pq_model.specs.Lawful.{IsLawfulAction};
ghost use Rattle.pq_model.specs.Spelling.{action_bytes, actions_bytes, max_len};

use crate::set_field::{write_set_field, write_set_vlan};
use pq_model::{Action, CONTROLLER};
use std::alloc::{AllocError, Global};

/// The type of an action that sends to a port (OpenFlow 1.3.5, section 7.2.5).
pub const OUTPUT: u8 = 0;

/// The type of an action that puts a VLAN header in front.
pub const PUSH_VLAN: u8 = 17;

/// The type of an action that takes the VLAN header away.
pub const POP_VLAN: u8 = 18;

/// The type of an action that runs a group.
pub const GROUP: u8 = 22;

// The room for a spelling of actions to begin with, in bytes: four actions need no more.
const ROOM: usize = 64;

// The length that stands for a whole packet, of which the switch keeps no copy.
const NO_BUFFER: u16 = 0xffff;

// How many bytes of a packet go to the controller; for a port the number is 0.
fn max_len(port: u32) -> u16
    ensures { result ≡ max_len port }
{
    if port == CONTROLLER { NO_BUFFER } else { 0 }
}

// An Output: the port and how many bytes of the packet go to the controller.
#[tactic(auto, unfolding(pq_model::specs::Spelling::action_bytes))]
fn write_output(port: u32, into: &mut Vec<u8>) -> Result<(), AllocError>
    ensures { OnOk result (into.new.items ≡ into.old.items ++ action_bytes (Output port)) }
{
    into.extend_from_slice(&[0, OUTPUT, 0, 16])?;
    into.extend_from_slice(&port.to_be_bytes())?;
    into.extend_from_slice(&max_len(port).to_be_bytes())?;
    into.extend_from_slice(&[0; 6])
}

// A Group: the group's number.
#[tactic(auto, unfolding(pq_model::specs::Spelling::action_bytes))]
fn write_group(number: u32, into: &mut Vec<u8>) -> Result<(), AllocError>
    ensures { OnOk result (into.new.items ≡ into.old.items ++ action_bytes (Group number)) }
{
    into.extend_from_slice(&[0, GROUP, 0, 8])?;
    into.extend_from_slice(&number.to_be_bytes())
}

// An action with its type and its length.
#[tactic(auto, unfolding(pq_model::specs::Spelling::action_bytes))]
fn write_action(action: Action, into: &mut Vec<u8>) -> Result<(), AllocError>
    requires { IsLawfulAction action }
    ensures { OnOk result (into.new.items ≡ into.old.items ++ action_bytes action) }
{
    match action {
        Action::Output(port) => write_output(port, into),
        Action::PushVlan => into.extend_from_slice(&[0, PUSH_VLAN, 0, 8, 0x81, 0, 0, 0]),
        Action::PopVlan => into.extend_from_slice(&[0, POP_VLAN, 0, 8, 0, 0, 0, 0]),
        Action::Group(number) => write_group(number, into),
        Action::SetVlan(word) => write_set_vlan(word, into),
        Action::SetField(field, number) => write_set_field(field, number, into),
    }
}

/// The spellings of actions, one after another.
pub fn actions_spelling(alloc: Global, actions: &[Action]) -> Result<Vec<u8>, AllocError>
    requires { All IsLawfulAction actions.now }
    ensures { IfOk result (λ bytes. bytes.items ≡ actions_bytes actions.now) }
{
    let mut bytes = Vec::with_capacity(alloc, ROOM)?;
    for action in actions {
        write_action(*action, &mut bytes)?;
    }
    Ok(bytes)
}
