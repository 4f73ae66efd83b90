//! The groups of brackets, by their fields and values.
ghost use Rattle.std.specs.Prelude.{◌≡◌, [], ◌∷◌, ◌++◌, IfOk, nat_eq};
ghost use Rattle.std.specs.List.{IsDistinct};
ghost use Rattle.pq_tree.specs.Trees.{tree, trees};
ghost use Rattle.pq_topo.specs.Naming.{IsAnswer};
ghost use Rattle.pq_fields.specs.Packet.{is_wide};
ghost use Rattle.pq_query.specs.Resolved.{
  fresh_at,
  group_at,
  grouped_at,
  groups_after,
  has_values,
  is_field,
  is_grouped,
  is_listed,
  value_at,
  values_after,
  with_values,
};

use crate::group::Group;
use indexmap::IndexSet;
use pq_fields::Field;
use pq_pred::{faulty, field_at, value_of};
use pq_term::Token;
use pq_topo::{NameFault, NameKind, Topology};
use pq_tree::{Term, text_in};
use std::alloc::Global;

/// Keeps the number of a token with earlier ones, none of which is the same.
fn keep_value(values: &mut IndexSet<u64>, token: &Token, value: u64) -> Result<u64, NameFault>
    ensures value { IsAnswer (λ n. n) result (fresh_at values.old.keys token.now value) }
    ensures kept { IfOk result (λ n. values.new.keys ≡ values.old.keys ++ n ∷ []) }
{
    if values.contains(&value) {
        return Err(faulty(token, NameKind::Doubled));
    }
    match values.insert(value) {
        Ok(_) => Ok(value),
        Err(_) => Err(NameFault::Memory),
    }
}

/// Reads a value of a list, after earlier ones, and keeps it with them.
fn read_value(
    bytes: &[u8],
    topology: &Topology,
    field: Field,
    values: &mut IndexSet<u64>,
    token: &Token,
) -> Result<u64, NameFault>
    ensures value { IsAnswer (λ n. n) result (value_at topology.now bytes.now field values.old.keys token.now) }
    ensures kept { IfOk result (λ n. values.new.keys ≡ values.old.keys ++ n ∷ []) }
{
    match value_of(topology, field, text_in(bytes, token)) {
        Ok(value) => keep_value(values, token, value),
        Err(kind) => Err(faulty(token, kind)),
    }
}

/// Reads the values of a list.
fn read_values(
    alloc: Global,
    bytes: &[u8],
    topology: &Topology,
    field: Field,
    terms: &[Term<'_>],
) -> Result<IndexSet<u64>, NameFault>
    ensures { IsAnswer (λ values. values.keys) result (values_after topology.now bytes.now field [] (trees terms.now)) }
{
    let mut values = IndexSet::new(alloc);
    for term in terms {
        match read_value(bytes, topology, field, &mut values, &term.head) {
            Ok(_) => {}
            Err(fault) => return Err(fault),
        }
    }
    Ok(values)
}

/// The values of a list, in text order.
fn values_in(
    alloc: Global,
    bytes: &[u8],
    topology: &Topology,
    field: Field,
    terms: &[Term<'_>],
) -> Result<Vec<u64>, NameFault>
    ensures values { IsAnswer (λ values. values.items) result (values_after topology.now bytes.now field [] (trees terms.now)) }
    ensures differ { IfOk result (λ values. IsDistinct nat_eq values.items) }
{
    let values = read_values(alloc, bytes, topology, field, terms)?;
    match Vec::from_slice(alloc, values.as_slice()) {
        Ok(values) => Ok(values),
        Err(_) => Err(NameFault::Memory),
    }
}

/// Whether the field is `switch` or `port`, whose values a topology lists.
fn is_listed(field: Field) -> bool
    ensures { result ≡ is_listed field }
{
    match field {
        Field::Switch | Field::Port => true,
        Field::EthType | Field::IpProto | Field::EthSrc | Field::EthDst => false,
        Field::Ipv4Src | Field::Ipv4Dst | Field::Ipv6Src | Field::Ipv6Dst => false,
        Field::TcpSrc | Field::TcpDst | Field::UdpSrc | Field::UdpDst => false,
    }
}

/// Whether the field is an IPv6 address.
fn is_wide(field: Field) -> bool
    ensures { result ≡ is_wide field }
{
    match field {
        Field::Ipv6Src | Field::Ipv6Dst => true,
        Field::Switch | Field::Port | Field::EthType | Field::IpProto => false,
        Field::EthSrc | Field::EthDst | Field::Ipv4Src | Field::Ipv4Dst => false,
        Field::TcpSrc | Field::TcpDst | Field::UdpSrc | Field::UdpDst => false,
    }
}

/// Whether the two fields are one.
fn is_field(field: Field, other: Field) -> bool
    ensures { result ≡ is_field field other }
{
    field == other
}

/// Whether one of the groups has the field.
fn is_grouped(field: Field, groups: &[Group]) -> bool
    ensures { result ≡ is_grouped field groups.now }
{
    for group in groups {
        if is_field(field, group.field) {
            return true;
        }
    }
    false
}

/// The field of a group, after earlier groups of the same brackets. The flag says whether its values are stated.
fn grouped_at(
    bytes: &[u8],
    earlier: &[Group],
    stated: bool,
    token: &Token,
) -> Result<Field, NameFault>
    ensures { IsAnswer (λ f. f) result (grouped_at bytes.now earlier.now stated token.now) }
{
    let field = field_at(bytes, token)?;
    if is_grouped(field, earlier) {
        return Err(faulty(token, NameKind::Doubled));
    }
    if !stated && !is_listed(field) {
        return Err(faulty(token, NameKind::NotListed));
    }
    if is_wide(field) {
        return Err(faulty(token, NameKind::NotListed));
    }
    Ok(field)
}

/// Whether a field has values below it.
fn has_values(terms: &[Term<'_>]) -> bool
    ensures { result ≡ has_values (trees terms.now) }
{
    match terms {
        [_, ..] => true,
        [] => false,
    }
}

/// The group of a field, with the values that are below it.
fn with_values(
    alloc: Global,
    bytes: &[u8],
    topology: &Topology,
    field: Field,
    terms: &[Term<'_>],
) -> Result<Group, NameFault>
    ensures { IsAnswer (λ g. g) result (with_values topology.now bytes.now field (trees terms.now)) }
{
    if !has_values(terms) {
        return Ok(Group {
            field,
            values: None,
        });
    }
    let values = values_in(alloc, bytes, topology, field, terms)?;
    Ok(Group {
        field,
        values: Some(values),
    })
}

/// A group, after earlier ones of the same brackets.
fn group_at(
    alloc: Global,
    bytes: &[u8],
    topology: &Topology,
    earlier: &[Group],
    term: &Term<'_>,
) -> Result<Group, NameFault>
    ensures { IsAnswer (λ g. g) result (group_at topology.now bytes.now earlier.now (tree term.now).head (tree term.now).below) }
{
    let stated = has_values(term.children);
    let field = grouped_at(bytes, earlier, stated, &term.head)?;
    with_values(alloc, bytes, topology, field, term.children)
}

/// The groups of brackets, in text order.
pub(crate) fn groups_at(
    alloc: Global,
    bytes: &[u8],
    topology: &Topology,
    terms: &[Term<'_>],
) -> Result<Vec<Group>, NameFault>
    ensures { IsAnswer (λ gs. gs.items) result (groups_after topology.now bytes.now [] (trees terms.now)) }
{
    let mut groups = Vec::new(alloc);
    for term in terms {
        let group = match group_at(alloc, bytes, topology, &groups, term) {
            Ok(group) => group,
            Err(fault) => return Err(fault),
        };
        match groups.push(group) {
            Ok(()) => {}
            Err(_) => return Err(NameFault::Memory),
        }
    }
    Ok(groups)
}
