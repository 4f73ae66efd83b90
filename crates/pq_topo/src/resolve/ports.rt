//! The ports of a switch, as its statement lists them.
ghost use Rattle.std.specs.Prelude.{◌≡◌, [], ◌∷◌, ◌++◌, IfOk, OnOk};
ghost use Rattle.pq_model.specs.Sorting.{sort_by};
ghost use Rattle.pq_tree.specs.Trees.{trees};
ghost use Rattle.pq_topo.specs.Naming.{IsAnswer, next};
ghost use Rattle.pq_topo.specs.Statements.{may_be_port, port_of, ports_after};

use crate::fault::{NameFault, NameKind};
use crate::resolve::tokens::{fault, number_in};
use indexmap::IndexSet;
use pq_model::LAST_PORT;
use pq_term::Token;
use pq_tree::Term;
use std::alloc::Global;

/// Whether a port may have this number: 1 to 0xffffff00.
fn may_be_port(number: u64) -> bool
    ensures { result ≡ may_be_port number }
{
    1 <= number && number <= u64::from(LAST_PORT)
}

/// Reads a port of a list, after earlier ones of the list, of which there may be this many.
fn read_port(
    bytes: &[u8],
    room: usize,
    ports: &mut IndexSet<u32>,
    token: &Token,
) -> Result<u32, NameFault>
    ensures port { IsAnswer (λ port. port) result (port_of bytes.now room ports.old.keys token.now) }
    ensures kept { IfOk result (λ port. ports.new.keys ≡ ports.old.keys ++ port ∷ []) }
{
    let number = number_in(bytes, token);
    if !may_be_port(number) {
        return Err(fault(token, NameKind::BadValue));
    }
    let port = number as u32;
    if ports.contains(&port) {
        return Err(fault(token, NameKind::Doubled));
    }
    if room <= ports.len() {
        return Err(fault(token, NameKind::Many));
    }
    match ports.insert(port) {
        Ok(_) => Ok(port),
        Err(_) => Err(NameFault::Memory),
    }
}

/// Reads the ports of a list, of which there may be this many.
#[tactic(auto, using(crate::proofs::PortSteps::port_is_read, crate::proofs::PortSteps::port_is_refused))]
pub(crate) fn read_ports(
    alloc: Global,
    bytes: &[u8],
    room: usize,
    terms: &[Term<'_>],
) -> Result<IndexSet<u32>, NameFault>
    ensures { IsAnswer (λ ports. ports.keys) result (ports_after bytes.now room [] (trees terms.now)) }
{
    let mut ports = IndexSet::new(alloc);
    for term in terms {
        match read_port(bytes, room, &mut ports, &term.head) {
            Ok(_) => {}
            Err(fault) => return Err(fault),
        }
    }
    Ok(ports)
}
