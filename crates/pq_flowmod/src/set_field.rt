ghost use Rattle.std.specs.Prelude.{◌≡◌, ◌<◌, ◌≤◌, ◌∷◌, ◌++◌, length, OnOk};
ghost use Rattle.pq_model.specs.declared.action.Action.TheVariants.{SetField, SetVlan};
ghost use Rattle.pq_model.specs.Lawful.{IsSettable};
ghost use Rattle.pq_model.specs.Spelling.{action_bytes, oxm, padded};

use pq_fields::Field;
use pq_oxm::{oxm_field, padding, write_oxm, write_zeros};
use std::alloc::AllocError;

/// The action type of a set-field (OpenFlow 1.3.5, section 7.2.5).
pub const SET_FIELD: u8 = 25;

// A set-field of one OXM field, padded to a multiple of eight bytes: 16, as values have 1 to 8.
fn write_set_oxm(field: u8, value: &[u8], into: &mut Vec<u8>) -> Result<(), AllocError>
    requires field { field < 128 }
    requires short { length value.now ≤ 8 }
    ensures { OnOk result
        (into.new.items ≡ into.old.items ++ padded (0 ∷ 25 ∷ 0 ∷ 16 ∷ oxm field value.now)) }
{
    into.extend_from_slice(&[0, SET_FIELD, 0, 16])?;
    write_oxm(field, value, into)?;
    write_zeros(padding(8 + value.len()), into)
}

/// Appends the set-field of a VLAN_VID word.
#[tactic(auto, unfolding(pq_model::specs::Spelling::action_bytes))]
pub fn write_set_vlan(word: u16, into: &mut Vec<u8>) -> Result<(), AllocError>
    ensures { OnOk result (into.new.items ≡ into.old.items ++ action_bytes (SetVlan word)) }
{
    write_set_oxm(oxm_field::VLAN_VID, &word.to_be_bytes(), into)
}

/// Appends the set-field of a header field that a policy writes: the low bytes of the number, as many
/// as the field has.
#[tactic(auto, unfolding(pq_model::specs::Spelling::action_bytes))]
pub fn write_set_field(field: Field, number: u64, into: &mut Vec<u8>) -> Result<(), AllocError>
    requires { IsSettable field }
    ensures { OnOk result
        (into.new.items ≡ into.old.items ++ action_bytes (SetField field number)) }
{
    let bytes = number.to_be_bytes();
    match field {
        Field::EthSrc => write_set_oxm(oxm_field::ETH_SRC, &bytes[2..], into),
        Field::EthDst => write_set_oxm(oxm_field::ETH_DST, &bytes[2..], into),
        Field::Ipv4Src => write_set_oxm(oxm_field::IPV4_SRC, &bytes[4..], into),
        Field::Ipv4Dst => write_set_oxm(oxm_field::IPV4_DST, &bytes[4..], into),
        Field::TcpSrc => write_set_oxm(oxm_field::TCP_SRC, &bytes[6..], into),
        Field::TcpDst => write_set_oxm(oxm_field::TCP_DST, &bytes[6..], into),
        Field::UdpSrc => write_set_oxm(oxm_field::UDP_SRC, &bytes[6..], into),
        Field::UdpDst => write_set_oxm(oxm_field::UDP_DST, &bytes[6..], into),
        _ => unreachable!(),
    }
}
