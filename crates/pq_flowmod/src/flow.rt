ghost use Rattle.std.specs.Prelude.{◌≡◌, ◌++◌, All, IfOk, OnOk};
ghost use Rattle.pq_model.specs.Lawful.{IsLawfulAction, IsLawfulFlow};
ghost use Rattle.pq_model.specs.Spelling.{apply_bytes, flow_body, flow_code, goto_bytes};

use crate::action::actions_spelling;
use crate::message::ROOM;
use pq_model::{Action, FlowCommand, FlowMod};
use pq_oxm::{write_length, write_match};
use std::alloc::{AllocError, Global};

// The type of an instruction that goes on in another table (OpenFlow 1.3.5, section 7.2.4).
const GOTO_TABLE: u8 = 1;

/// The type of an instruction that applies actions.
pub const APPLY_ACTIONS: u8 = 4;

// The number of a command (OpenFlow 1.3.5, section 7.3.4.1).
fn flow_code(command: FlowCommand) -> u8
    ensures { result ≡ flow_code command }
{
    match command {
        FlowCommand::Add => 0,
        FlowCommand::DeleteAll => 3,
        FlowCommand::DeleteStrict => 4,
    }
}

// The instruction APPLY_ACTIONS, where there are actions.
#[tactic(auto, unfolding(pq_model::specs::Spelling::apply_bytes))]
fn write_apply(alloc: Global, actions: &[Action], into: &mut Vec<u8>) -> Result<(), AllocError>
    requires { All IsLawfulAction actions.now }
    ensures { OnOk result (into.new.items ≡ into.old.items ++ apply_bytes actions.now) }
{
    if actions.is_empty() {
        return Ok(());
    }
    let spelling = actions_spelling(alloc, actions)?;
    into.extend_from_slice(&[0, APPLY_ACTIONS])?;
    write_length(8 + spelling.len(), into)?;
    into.extend_from_slice(&[0; 4])?;
    into.extend_from_slice(&spelling)
}

// The instruction GOTO_TABLE, where the entry goes on.
#[tactic(auto, unfolding(pq_model::specs::Spelling::goto_bytes))]
fn write_goto(goto: Option<u8>, into: &mut Vec<u8>) -> Result<(), AllocError>
    ensures { OnOk result (into.new.items ≡ into.old.items ++ goto_bytes goto) }
{
    match goto {
        None => Ok(()),
        Some(table) => into.extend_from_slice(&[0, GOTO_TABLE, 0, 8, table, 0, 0, 0]),
    }
}

// The two instructions: actions, and the table to go on in.
fn write_instructions(alloc: Global, flow: &FlowMod, into: &mut Vec<u8>) -> Result<(), AllocError>
    requires { IsLawfulFlow flow.now }
    ensures { OnOk result (into.new.items ≡ into.old.items ++ apply_bytes flow.now.actions ++ goto_bytes flow.now.goto) }
{
    write_apply(alloc, &flow.actions, into)?;
    write_goto(flow.goto, into)
}

/// What follows the header in the spelling of a flow mod: no cookie mask, no timeouts, no buffer,
/// any port and group, and no flags (OpenFlow 1.3.5, section 7.3.4.1).
#[tactic(auto, unfolding(pq_model::specs::Spelling::flow_body))]
pub fn flow_body(alloc: Global, flow: &FlowMod) -> Result<Vec<u8>, AllocError>
    requires { IsLawfulFlow flow.now }
    ensures { IfOk result (λ bytes. bytes.items ≡ flow_body flow.now) }
{
    let mut bytes = Vec::with_capacity(alloc, ROOM)?;
    bytes.extend_from_slice(&flow.cookie.to_be_bytes())?;
    bytes.extend_from_slice(&[0; 8])?;
    bytes.extend_from_slice(&[flow.table, flow_code(flow.command), 0, 0, 0, 0])?;
    bytes.extend_from_slice(&flow.priority.to_be_bytes())?;
    bytes.extend_from_slice(&[0xff; 12])?;
    bytes.extend_from_slice(&[0; 4])?;
    write_match(alloc, &flow.matching, &mut bytes)?;
    write_instructions(alloc, flow, &mut bytes)?;
    Ok(bytes)
}
