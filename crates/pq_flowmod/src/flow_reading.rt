ghost use Rattle.std.specs.Prelude.{◌≡◌, ℕ, ◌+◌, ◌<◌, ◌≤◌, ◌^◌, ◌++◌, List, [], All, IfOk, IfSome, IsSomeAnd, length, drop};
ghost use Rattle.std.specs.declared.option.Option.{Option};
ghost use Rattle.std.specs.declared.option.Option.TheVariants.{None, Some};
ghost use Rattle.pq_model.specs.declared.action.Action.{Action};
ghost use Rattle.pq_model.specs.declared.flow_mod.FlowCommand.{FlowCommand};
ghost use Rattle.pq_model.specs.declared.flow_mod.FlowCommand.TheVariants.{Add, DeleteAll, DeleteStrict};
ghost use Rattle.pq_model.specs.Lawful.{IsLawfulAction, IsLawfulFlow};
ghost use Rattle.pq_model.specs.MatchFields.{MatchFields, IsLawfulMatch};
ghost use Rattle.pq_model.specs.Mods.{FlowValue};
ghost use Rattle.pq_model.specs.Spelling.{
  actions_bytes,
  apply_bytes,
  flow_body,
  flow_code,
  goto_bytes,
  match_bytes,
};

use crate::action_reading::actions_of;
use crate::flow::APPLY_ACTIONS;
use crate::rules::{is_addition, is_table};
use pq_model::{Action, FlowCommand, FlowMod, Match};
use pq_oxm::{MatchFault, keeps_rules, read_match, u16_of, u64_of};
use std::alloc::{AllocError, Global};

// The bytes of the actions that the first instruction applies, none where it applies none, and what
// is after it.
fn applied(bytes: &[u8]) -> Option<(&[u8], &[u8])>
    ensures { (actions : List Action) (goto : Option ℕ) → length (apply_bytes actions ++ goto_bytes goto) < 2 ^ 16
        → bytes.now ≡ apply_bytes actions ++ goto_bytes goto
        → IsSomeAnd result (λ parts. (parts.0.now ≡ actions_bytes actions) × (parts.1.now ≡ goto_bytes goto)) }
{
    if bytes.len() < 8 {
        return Some((&bytes[..0], bytes));
    }
    if bytes[1] != APPLY_ACTIONS {
        return Some((&bytes[..0], bytes));
    }
    let size = usize::from(u16::from_be_bytes([bytes[2], bytes[3]]));
    if size < 8 {
        return None;
    }
    if bytes.len() < size {
        return None;
    }
    Some((&bytes[8..size], &bytes[size..]))
}

// The table that the last instruction goes to, where there is one.
fn goto_of(bytes: &[u8]) -> Option<u8>
    ensures { (goto : Option ℕ) → bytes.now ≡ goto_bytes goto → result ≡ goto }
{
    if bytes.len() < 8 {
        return None;
    }
    Some(bytes[4])
}

// The actions that an entry applies and the table that it goes to, as its instructions say.
fn instructions_of(
    alloc: Global,
    bytes: &[u8],
) -> Result<Option<(Vec<Action>, Option<u8>)>, AllocError>
    ensures { IfOk result (λ found. (actions : List Action) (goto : Option ℕ) → All IsLawfulAction actions
        → length (apply_bytes actions ++ goto_bytes goto) < 2 ^ 16 → bytes.now ≡ apply_bytes actions ++ goto_bytes goto
        → IsSomeAnd found (λ x. (x.0.items ≡ actions) × (x.1 ≡ goto))) }
{
    let Some(parts) = applied(bytes) else {
        return Ok(None);
    };
    let Some(actions) = actions_of(alloc, parts.0)? else {
        return Ok(None);
    };
    Ok(Some((actions, goto_of(parts.1))))
}

// The match that is after the forty bytes of numbers, and the byte after it.
fn matching_of(alloc: Global, body: &[u8]) -> Result<Option<(Match, usize)>, AllocError>
    ensures within { IfOk result (λ found. IfSome found (λ x. x.1 ≤ length body.now)) }
    ensures said { IfOk result (λ found. (m : MatchFields) (more : List ℕ) → IsLawfulMatch m → drop 40 body.now ≡ match_bytes m ++ more
        → IsSomeAnd found (λ x. (x.0 ≡ m) × (drop x.1 body.now ≡ more))) }
{
    match read_match(alloc, body, 40) {
        Ok(found) => {
            keeps_rules(found.0);
            Ok(Some(found))
        }
        Err(MatchFault::BadMatch { .. }) => Ok(None),
        Err(MatchFault::Memory) => Err(AllocError),
    }
}

// A message that removes all entries.
fn clearing(alloc: Global, xid: u32) -> FlowMod
    ensures lawful { IsLawfulFlow result }
    ensures said { (f : FlowValue) → IsLawfulFlow f → f.command ≡ DeleteAll → f.xid ≡ xid → result ≡ f }
{
    FlowMod {
        xid,
        cookie: 0,
        table: 0xff,
        command: FlowCommand::DeleteAll,
        priority: 0,
        matching: Match::any(),
        actions: Vec::new(alloc),
        goto: None,
    }
}

// A message that removes the entry of a table, a match and a priority.
fn removal(alloc: Global, xid: u32, body: &[u8]) -> Result<Option<FlowMod>, AllocError>
    requires { 40 ≤ length body.now }
    ensures lawful { IfOk result (λ found. IfSome found IsLawfulFlow) }
    ensures said { IfOk result (λ found. (f : FlowValue) → IsLawfulFlow f → f.command ≡ DeleteStrict → f.xid ≡ xid
        → body.now ≡ flow_body f → found ≡ Some f) }
{
    let Some(matching) = matching_of(alloc, body)? else {
        return Ok(None);
    };
    let table = body[16];
    if !is_table(table) {
        return Ok(None);
    }
    Ok(Some(FlowMod {
        xid,
        cookie: 0,
        table,
        command: FlowCommand::DeleteStrict,
        priority: u16_of(&body[22..24]),
        matching: matching.0,
        actions: Vec::new(alloc),
        goto: None,
    }))
}

// A message that adds an entry.
fn addition(alloc: Global, xid: u32, body: &[u8]) -> Result<Option<FlowMod>, AllocError>
    requires { 40 ≤ length body.now }
    ensures lawful { IfOk result (λ found. IfSome found IsLawfulFlow) }
    ensures said { IfOk result (λ found. (f : FlowValue) → IsLawfulFlow f → f.command ≡ Add → f.xid ≡ xid
        → length (flow_body f) < 2 ^ 16 → body.now ≡ flow_body f → found ≡ Some f) }
{
    let Some(matching) = matching_of(alloc, body)? else {
        return Ok(None);
    };
    let Some(instructions) = instructions_of(alloc, &body[matching.1..])? else {
        return Ok(None);
    };
    let table = body[16];
    if !is_addition(table, &instructions.0, instructions.1) {
        return Ok(None);
    }
    Ok(Some(FlowMod {
        xid,
        cookie: u64_of(&body[..8]),
        table,
        command: FlowCommand::Add,
        priority: u16_of(&body[22..24]),
        matching: matching.0,
        actions: instructions.0,
        goto: instructions.1,
    }))
}

// The command of a number (OpenFlow 1.3.5, section 7.3.4.1).
fn command_of(code: u8) -> Option<FlowCommand>
    ensures { (command : FlowCommand) → code ≡ flow_code command → result ≡ Some command }
{
    match code {
        0 => Some(FlowCommand::Add),
        3 => Some(FlowCommand::DeleteAll),
        4 => Some(FlowCommand::DeleteStrict),
        _ => None,
    }
}

/// The lawful flow mod whose spelling the bytes are after the header (OpenFlow 1.3.5, section 7.3.4.1).
/// Where they are none's, it may be any or none.
pub fn flow_of(alloc: Global, xid: u32, body: &[u8]) -> Result<Option<FlowMod>, AllocError>
    ensures lawful { IfOk result (λ found. IfSome found IsLawfulFlow) }
    ensures said { IfOk result (λ found. (f : FlowValue) → IsLawfulFlow f → f.xid ≡ xid → length (flow_body f) < 2 ^ 16
        → body.now ≡ flow_body f → found ≡ Some f) }
{
    if body.len() < 40 {
        return Ok(None);
    }
    match command_of(body[17]) {
        None => Ok(None),
        Some(FlowCommand::Add) => addition(alloc, xid, body),
        Some(FlowCommand::DeleteAll) => Ok(Some(clearing(alloc, xid))),
        Some(FlowCommand::DeleteStrict) => removal(alloc, xid, body),
    }
}
