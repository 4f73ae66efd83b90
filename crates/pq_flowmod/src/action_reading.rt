ghost use Rattle.std.specs.Prelude.{◌≡◌, ◌<◌, ◌≤◌, ◌++◌, List, ℕ, All, IfOk, IfSome, IsSomeAnd, length};
ghost use Rattle.std.specs.declared.option.Option.TheVariants.{Some};
ghost use Rattle.pq_model.specs.declared.action.Action.{Action};
ghost use Rattle.pq_model.specs.Lawful.{IsLawfulAction};
ghost use Rattle.pq_model.specs.Spelling.{action_bytes, actions_bytes};
ghost use Rattle.pq_flowmod.specs.Reading.{action_in, set_in};

use crate::action::{GROUP, OUTPUT, POP_VLAN, PUSH_VLAN};
use crate::set_field::SET_FIELD;
use pq_fields::Field;
use pq_model::Action;
use pq_oxm::{mac_of, oxm_field, u16_of, u32_of};
use std::alloc::{AllocError, Global};

// The length of an action that is at the front, as it tells it itself.
fn action_len(bytes: &[u8]) -> Option<usize>
    ensures within { IfSome result (λ size. (8 ≤ size) × (size ≤ length bytes.now)) }
    ensures told { (a : Action) (more : List ℕ) → IsLawfulAction a → bytes.now ≡ action_bytes a ++ more → result ≡ Some (length (action_bytes a)) }
{
    if bytes.len() < 8 {
        return None;
    }
    let size = usize::from(bytes[3]);
    if size < 8 {
        return None;
    }
    if bytes.len() < size {
        return None;
    }
    Some(size)
}

// What a set-field sets. The third byte of its OXM field is the field's number and a bit for a mask.
#[tactic(auto, unfolding(crate::specs::Reading::set_in))]
fn set_of(bytes: &[u8]) -> Option<Action>
    requires { 16 ≤ length bytes.now }
    ensures { result ≡ set_in bytes.now }
{
    match bytes[6] / 2 {
        oxm_field::VLAN_VID => Some(Action::SetVlan(u16_of(&bytes[8..10]))),
        oxm_field::ETH_SRC => Some(Action::SetField(Field::EthSrc, mac_of(&bytes[8..14]))),
        oxm_field::ETH_DST => Some(Action::SetField(Field::EthDst, mac_of(&bytes[8..14]))),
        oxm_field::IPV4_SRC => Some(Action::SetField(
            Field::Ipv4Src,
            u64::from(u32_of(&bytes[8..12])),
        )),
        oxm_field::IPV4_DST => Some(Action::SetField(
            Field::Ipv4Dst,
            u64::from(u32_of(&bytes[8..12])),
        )),
        oxm_field::TCP_SRC => Some(Action::SetField(
            Field::TcpSrc,
            u64::from(u16_of(&bytes[8..10])),
        )),
        oxm_field::TCP_DST => Some(Action::SetField(
            Field::TcpDst,
            u64::from(u16_of(&bytes[8..10])),
        )),
        oxm_field::UDP_SRC => Some(Action::SetField(
            Field::UdpSrc,
            u64::from(u16_of(&bytes[8..10])),
        )),
        oxm_field::UDP_DST => Some(Action::SetField(
            Field::UdpDst,
            u64::from(u16_of(&bytes[8..10])),
        )),
        _ => None,
    }
}

// What an action says.
#[tactic(auto, unfolding(crate::specs::Reading::action_in))]
fn action_of(bytes: &[u8]) -> Option<Action>
    requires { 8 ≤ length bytes.now }
    ensures { result ≡ action_in bytes.now }
{
    match bytes[1] {
        OUTPUT => Some(Action::Output(u32_of(&bytes[4..8]))),
        PUSH_VLAN => Some(Action::PushVlan),
        POP_VLAN => Some(Action::PopVlan),
        GROUP => Some(Action::Group(u32_of(&bytes[4..8]))),
        SET_FIELD => {
            if bytes.len() < 16 {
                return None;
            }
            set_of(bytes)
        }
        _ => None,
    }
}

/// The lawful actions whose spellings the bytes are, one after another. Where the bytes are the
/// spellings of no lawful actions, it may be any actions or none.
pub fn actions_of(alloc: Global, bytes: &[u8]) -> Result<Option<Vec<Action>>, AllocError>
    ensures { IfOk result (λ found. (whole : List Action) → All IsLawfulAction whole
        → bytes.now ≡ actions_bytes whole → IsSomeAnd found (λ actions. actions.items ≡ whole)) }
{
    let mut actions = Vec::new(alloc);
    let mut rest = bytes;
    while !rest.is_empty() {
        let Some(size) = action_len(rest) else {
            return Ok(None);
        };
        let Some(action) = action_of(&rest[..size]) else {
            return Ok(None);
        };
        actions.push(action)?;
        rest = &rest[size..];
    }
    Ok(Some(actions))
}
