//! Fields and their values, by what a text calls them.
ghost use Rattle.std.specs.Prelude.{◌≡◌, ◌≤◌, option_map, IfOk};
ghost use Rattle.pq_term.specs.Numbers.{number_of};
ghost use Rattle.pq_topo.specs.Naming.{IsAnswer};
ghost use Rattle.pq_pred.specs.Values.{field_at, name_in, or_else, switch_value, value_of, within};
ghost use Rattle.pq_model.specs.declared.reserved.TheConstants.{LAST_PORT};

use pq_fields::{Field, field_named};
use pq_model::LAST_PORT;
use pq_term::{Name, Token, ipv4_value, mac_value, number_value};
use pq_topo::{NameFault, NameKind, Topology};
use pq_tree::text_in;

/// The fault of a token that breaks a rule.
pub fn faulty(token: &Token, kind: NameKind) -> NameFault
    ensures { result ≡ NameFault.Name token.now.at kind }
{
    NameFault::Name { at: token.at, kind }
}

/// The field that a token names.
pub fn field_at(bytes: &[u8], token: &Token) -> Result<Field, NameFault>
    ensures { IsAnswer (λ f. f) result (field_at bytes.now token.now) }
{
    match field_named(text_in(bytes, token)) {
        Some(field) => Ok(field),
        None => Err(faulty(token, NameKind::UnknownField)),
    }
}

/// The number, where there is one between these two.
fn within(least: u64, most: u64, number: Option<u64>) -> Result<u64, NameKind>
    ensures value { result ≡ within least most number }
    ensures most { IfOk result (λ n. n ≤ most) }
{
    match number {
        Some(value) if least <= value && value <= most => Ok(value),
        _ => Err(NameKind::BadValue),
    }
}

/// The number of a port, from 1 to 0xffffff00.
pub fn port_value(text: &[u8]) -> Result<u32, NameKind>
    ensures { result ≡ within 1 LAST_PORT (number_of text.now) }
{
    match within(1, u64::from(LAST_PORT), number_value(text)) {
        Ok(port) => Ok(port as u32),
        Err(kind) => Err(kind),
    }
}

/// The address, where there is one.
fn address(number: Option<u64>) -> Result<u64, NameKind>
    ensures { result ≡ or_else NameKind.BadValue number }
{
    match number {
        Some(value) => Ok(value),
        None => Err(NameKind::BadValue),
    }
}

/// The datapath number of the switch that has the name.
fn switch_value(topology: &Topology, text: &[u8]) -> Result<u64, NameKind>
    ensures { result ≡ switch_value topology.now (name_in text.now) }
{
    match Name::of(text) {
        Some(name) => match topology.switch_named(&name) {
            Some(datapath) => Ok(datapath),
            None => Err(NameKind::UnknownSwitch),
        },
        None => Err(NameKind::BadValue),
    }
}

/// The number that a text stands for as a value of the field: a switch by its name, a port from 1 to 4294967040, other
/// numbers within the field's width, MAC and IPv4 addresses. No IPv6 address is a value: it is tested alone.
pub fn value_of(topology: &Topology, field: Field, text: &[u8]) -> Result<u64, NameKind>
    ensures { result ≡ value_of topology.now field text.now }
{
    match field {
        Field::Switch => switch_value(topology, text),
        Field::Port => within(1, 4_294_967_040, number_value(text)),
        Field::EthType | Field::TcpSrc | Field::TcpDst | Field::UdpSrc | Field::UdpDst => {
            within(0, 65_535, number_value(text))
        }
        Field::IpProto => within(0, 255, number_value(text)),
        Field::EthSrc | Field::EthDst => address(mac_value(text)),
        Field::Ipv4Src | Field::Ipv4Dst => address(ipv4_value(text).map(u64::from)),
        Field::Ipv6Src | Field::Ipv6Dst => Err(NameKind::BadValue),
    }
}
