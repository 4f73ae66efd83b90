//! Tests of fields, by what a text calls their values.
ghost use Rattle.std.specs.Prelude.{◌≡◌, ◌≤◌, ◌<◌, ◌^◌, false, true};
ghost use Rattle.pq_fields.specs.Packet.{is_wide};
ghost use Rattle.pq_fields.specs.Pred.{is_prefixed};
ghost use Rattle.pq_pred.specs.Values.{IsTest, cleared, exact_test, ipv4_test, ipv6_test, test_of, value_of};

use crate::values::value_of;
use pq_fields::{Field, Pred};
use pq_term::{cut_at, decimal_value, ipv4_value, ipv6_value};
use pq_topo::{NameKind, Topology};

/// The test of an IPv4 address: of all its bits, or of the leading ones where the text has the length of a prefix.
fn ipv4_test(field: Field, text: &[u8]) -> Result<Pred, NameKind>
    requires { is_prefixed field ≡ true }
    ensures { IsTest result (ipv4_test field text.now) }
{
    let (address, behind) = cut_at(b'/', text);
    let Some(value) = ipv4_value(address) else {
        return Err(NameKind::BadValue);
    };
    let Some(length) = behind else {
        return Ok(Pred::Equal(field, u64::from(value)));
    };
    match decimal_value(32, length) {
        Some(len) => Ok(Pred::Prefix(field, cleared_ipv4(field, len as u8, value), len as u8)),
        None => Err(NameKind::BadValue),
    }
}

/// The address with its leading bits alone, this many.
fn cleared_ipv4(field: Field, len: u8, value: u32) -> u32
    requires prefixed { is_prefixed field ≡ true }
    requires short { len ≤ 32 }
    ensures { result ≡ cleared field len value }
{
    let behind = 32 - u32::from(len);
    let leading = u64::from(value) >> behind;
    (leading << behind) as u32
}

/// The test of an IPv6 address: of all its bits, or of the leading ones where the text has the length of a prefix.
fn ipv6_test(field: Field, text: &[u8]) -> Result<Pred, NameKind>
    requires { is_wide field ≡ true }
    ensures { IsTest result (ipv6_test field text.now) }
{
    let (address, behind) = cut_at(b'/', text);
    let Some(value) = ipv6_value(address) else {
        return Err(NameKind::BadValue);
    };
    let Some(length) = behind else {
        return Ok(Pred::Wide(field, value, 128));
    };
    match decimal_value(128, length) {
        Some(len) => Ok(Pred::Wide(field, cleared_ipv6(field, len as u8, value), len as u8)),
        None => Err(NameKind::BadValue),
    }
}

/// The address with its leading bits alone, this many.
fn cleared_ipv6(field: Field, len: u8, value: u128) -> u128
    requires wide { is_wide field ≡ true }
    requires short { len ≤ 128 }
    ensures { result ≡ cleared field len value }
{
    if len == 0 {
        return 0;
    }
    let behind = 128 - u32::from(len);
    (value >> behind) << behind
}

/// The test of the field for the value that a text stands for.
pub(crate) fn test_of(topology: &Topology, field: Field, text: &[u8]) -> Result<Pred, NameKind>
    ensures { IsTest result (test_of topology.now field text.now) }
{
    match field {
        Field::Ipv4Src | Field::Ipv4Dst => ipv4_test(field, text),
        Field::Ipv6Src | Field::Ipv6Dst => ipv6_test(field, text),
        _ => exact_test(topology, field, text),
    }
}

/// The test of a field for one number.
fn exact_test(topology: &Topology, field: Field, text: &[u8]) -> Result<Pred, NameKind>
    ensures { IsTest result (exact_test field (value_of topology.now field text.now)) }
{
    match value_of(topology, field, text) {
        Ok(value) => Ok(Pred::Equal(field, value)),
        Err(kind) => Err(kind),
    }
}
