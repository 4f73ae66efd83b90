//! The switches of a document, as its statements describe them.
ghost use Rattle.std.specs.Prelude.{◌≡◌, [], ◌∷◌, ◌++◌, IfOk};
ghost use Rattle.pq_model.specs.Sorting.{sort_by};
ghost use Rattle.pq_tree.specs.Trees.{trees};
ghost use Rattle.pq_topo.specs.Naming.{IsAnswer, next};
ghost use Rattle.pq_topo.specs.Statements.{
  may_be_limit,
  stated_limit,
  limit_in,
  name_of,
  datapath_of,
  seen_more,
  switch_begins,
  switch_from,
  switch_of,
  switches_after,
};

use crate::fault::{NameFault, NameKind};
use crate::names::{add_name, has_name};
use crate::resolve::ports::read_ports;
use crate::resolve::sorting::sort_ports;
use crate::resolve::tokens::{begins_with, fault, number_in};
use crate::switch::Switch;
use indexmap::IndexSet;
use pq_grammar::Class;
use pq_term::{Name, Token};
use pq_tree::{Term, text_in};
use std::alloc::{AllocError, Global};
use std::marker::Model;

/// What the next switch is held against: the names and the datapath numbers of earlier ones, in text order, and how
/// many ports it may have.
#[derive(Drop)]
struct Before {
    names: IndexSet<Name>,
    datapaths: IndexSet<u64>,
    room: usize,
}

impl Model for Before {
    ghost use Rattle.pq_topo.specs.Statements.{Seen};

    ghost Value = { Seen };

    ghost view = { λ b. record { names = b.names.keys; datapaths = b.datapaths.keys; room = b.room } };
}

/// Reads the name of a switch, which is among no earlier ones, and puts it after them.
fn read_name(bytes: &[u8], names: &mut IndexSet<Name>, token: &Token) -> Result<Name, NameFault>
    ensures name { IsAnswer (λ name. name) result (name_of bytes.now names.old.keys token.now) }
    ensures kept { IfOk result (λ name. names.new.keys ≡ names.old.keys ++ name ∷ []) }
{
    let Some(name) = Name::of(text_in(bytes, token)) else {
        return Err(fault(token, NameKind::BadValue));
    };
    if has_name(names, &name) {
        return Err(fault(token, NameKind::Doubled));
    }
    add_name(names, name)?;
    Ok(name)
}

/// Reads the datapath number of a switch, which is among no earlier ones, and puts it after them.
fn read_datapath(
    bytes: &[u8],
    datapaths: &mut IndexSet<u64>,
    token: &Token,
) -> Result<u64, NameFault>
    ensures datapath { IsAnswer (λ datapath. datapath) result (datapath_of bytes.now datapaths.old.keys token.now) }
    ensures kept { IfOk result (λ datapath. datapaths.new.keys ≡ datapaths.old.keys ++ datapath ∷ []) }
{
    let datapath = number_in(bytes, token);
    if datapaths.contains(&datapath) {
        return Err(fault(token, NameKind::Doubled));
    }
    match datapaths.insert(datapath) {
        Ok(_) => Ok(datapath),
        Err(_) => Err(NameFault::Memory),
    }
}

/// Reads the number after `limit`.
fn read_stated(bytes: &[u8], token: &Token) -> Result<u32, NameFault>
    ensures { IsAnswer (λ limit. limit) result (stated_limit bytes.now token.now) }
{
    let limit = number_in(bytes, token);
    if !may_be_limit(limit) {
        return Err(fault(token, NameKind::BadValue));
    }
    Ok(limit as u32)
}

/// Whether a limit may be stated: 1 to 16,384.
fn may_be_limit(limit: u64) -> bool
    ensures { result ≡ may_be_limit limit }
{
    1 <= limit && limit <= 16384
}

/// Reads the limit that is stated, or gives 2,000 where none is.
#[tactic(auto, using(crate::proofs::Terms::trees_first))]
fn read_limit(bytes: &[u8], terms: &[Term<'_>]) -> Result<u32, NameFault>
    ensures { IsAnswer (λ limit. limit) result (limit_in bytes.now (trees terms.now)) }
{
    let [first, ..] = terms else {
        return Ok(2000);
    };
    let [number, ..] = first.children else {
        return Ok(2000);
    };
    read_stated(bytes, &number.head)
}

/// The ports in ascending order.
fn sorted(alloc: Global, ports: &IndexSet<u32>) -> Result<Vec<u32>, AllocError>
    ensures { IfOk result (λ sorted. sorted.items ≡ sort_by (λ p. p ∷ []) ports.now.keys) }
{
    let mut sorted = Vec::from_slice(alloc, ports.as_slice())?;
    sort_ports(&mut sorted)?;
    Ok(sorted)
}

/// Refuses the 257th switch.
fn begin(before: &Before, keyword: &Token) -> Result<(), NameFault>
    ensures { IsAnswer (λ nothing. keyword.now) result (switch_begins before.now keyword.now) }
{
    if 256 <= before.names.len() {
        return Err(fault(keyword, NameKind::Many));
    }
    Ok(())
}

/// Reads a switch of these parts, after earlier ones, and keeps what it is known by.
#[tactic(auto, using(crate::proofs::Passed::passed, crate::proofs::Passed::followed))]
fn read_parts(
    alloc: Global,
    bytes: &[u8],
    before: &mut Before,
    keyword: &Token,
    name: &Token,
    datapath: &Token,
    ports: &[Term<'_>],
    rest: &[Term<'_>],
) -> Result<Switch, NameFault>
    ensures switch { IsAnswer (λ switch. switch) result
        (switch_from bytes.now before.old keyword.now name.now datapath.now (trees ports.now) (trees rest.now)) }
    ensures kept { IfOk result (λ switch. before.new ≡ seen_more before.old switch) }
{
    begin(before, keyword)?;
    let name = read_name(bytes, &mut before.names, name)?;
    let datapath = read_datapath(bytes, &mut before.datapaths, datapath)?;
    let ports = read_ports(alloc, bytes, before.room, ports)?;
    let limit = read_limit(bytes, rest)?;
    match sorted(alloc, &ports) {
        Ok(ports) => {
            before.room = before.room.saturating_sub(ports.len());
            Ok(Switch {
                name,
                datapath,
                ports,
                limit,
            })
        }
        Err(_) => Err(NameFault::Memory),
    }
}

/// Reads the switch of a statement with these parts, after earlier switches, and keeps what it is known by.
#[tactic(auto, using(crate::proofs::Terms::trees_first))]
fn read_switch(
    alloc: Global,
    bytes: &[u8],
    before: &mut Before,
    keyword: &Token,
    parts: &[Term<'_>],
) -> Result<Switch, NameFault>
    ensures switch { IsAnswer (λ switch. switch) result (switch_of bytes.now before.old keyword.now (trees parts.now)) }
    ensures kept { IfOk result (λ switch. before.new ≡ seen_more before.old switch) }
{
    let [name, datapath, list, rest @ ..] = parts else {
        return Err(fault(keyword, NameKind::BadValue));
    };
    let [_first, ..] = list.children else {
        return Err(fault(keyword, NameKind::BadValue));
    };
    read_parts(
        alloc,
        bytes,
        before,
        keyword,
        &name.head,
        &datapath.head,
        list.children,
        rest,
    )
}

/// Reads the switches of statements, in text order.
#[tactic(auto, using(crate::proofs::SwitchSteps::switch_is_read, crate::proofs::SwitchSteps::switch_is_refused, crate::proofs::SwitchSteps::no_switch, crate::proofs::SwitchSteps::switch_seen))]
pub(crate) fn read_switches(
    alloc: Global,
    bytes: &[u8],
    terms: &[Term<'_>],
) -> Result<Vec<Switch>, NameFault>
    ensures { IsAnswer (λ switches. switches.items) result (switches_after bytes.now [] (trees terms.now)) }
{
    let mut before = Before {
        names: IndexSet::new(alloc),
        datapaths: IndexSet::new(alloc),
        room: 4096,
    };
    let mut switches = Vec::new(alloc);
    for term in terms {
        if begins_with(bytes, Class::SwitchWord, &term.head) {
            match read_switch(alloc, bytes, &mut before, &term.head, term.children) {
                Ok(switch) => match switches.push(switch) {
                    Ok(()) => {}
                    Err(_) => return Err(NameFault::Memory),
                },
                Err(fault) => return Err(fault),
            }
        }
    }
    Ok(switches)
}
