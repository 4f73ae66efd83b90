//! The writes of a text.
ghost use Rattle.std.specs.Prelude.{◌≡◌};
ghost use Rattle.pq_tree.specs.Trees.{trees};
ghost use Rattle.pq_topo.specs.Naming.{IsAnswer};
ghost use Rattle.pq_policy.specs.Policy.{is_writable, policy_tree};
ghost use Rattle.pq_policy.specs.Resolved.{writable_at, write_at, write_below, write_of};

use crate::policy::Policy;
use pq_fields::Field;
use pq_pred::{faulty, field_at, value_of};
use pq_term::Token;
use pq_topo::{NameFault, NameKind, Topology};
use pq_tree::{Term, text_in};

/// Whether a policy may write the field.
fn is_writable(field: Field) -> bool
    ensures { result ≡ is_writable field }
{
    match field {
        Field::EthSrc | Field::EthDst | Field::Ipv4Src | Field::Ipv4Dst => true,
        Field::TcpSrc | Field::TcpDst | Field::UdpSrc | Field::UdpDst => true,
        Field::Switch | Field::Port | Field::EthType | Field::IpProto => false,
        Field::Ipv6Src | Field::Ipv6Dst => false,
    }
}

/// The field that a token names, where it may be written.
fn writable_at(bytes: &[u8], token: &Token) -> Result<Field, NameFault>
    ensures { IsAnswer (λ f. f) result (writable_at bytes.now token.now) }
{
    let field = field_at(bytes, token)?;
    if !is_writable(field) {
        return Err(faulty(token, NameKind::NotWritable));
    }
    Ok(field)
}

/// The write of a value to a field.
fn write_at(
    field: &Token,
    value: &Token,
    bytes: &[u8],
    topology: &Topology,
) -> Result<Policy, NameFault>
    ensures { IsAnswer policy_tree result (write_at topology.now bytes.now field.now value.now) }
{
    let name = writable_at(bytes, field)?;
    match value_of(topology, name, text_in(bytes, value)) {
        Ok(number) => Ok(Policy::Mod(name, number)),
        Err(kind) => Err(faulty(value, kind)),
    }
}

/// The write of the value that is below its field.
fn write_below(
    field: &Token,
    children: &[Term<'_>],
    bytes: &[u8],
    topology: &Topology,
) -> Result<Policy, NameFault>
    ensures { IsAnswer policy_tree result (write_below topology.now bytes.now field.now (trees children.now)) }
{
    match children {
        [value, ..] => write_at(field, &value.head, bytes, topology),
        [] => Err(faulty(field, NameKind::BadValue)),
    }
}

/// The write that is the child.
pub(crate) fn write_of(
    head: &Token,
    children: &[Term<'_>],
    bytes: &[u8],
    topology: &Topology,
) -> Result<Policy, NameFault>
    ensures { IsAnswer policy_tree result (write_of topology.now bytes.now head.now (trees children.now)) }
{
    match children {
        [field, ..] => write_below(&field.head, field.children, bytes, topology),
        [] => Err(faulty(head, NameKind::BadValue)),
    }
}
