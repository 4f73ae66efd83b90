ghost use Rattle.std.specs.Prelude.{◌≡◌, ◌↔◌, ℕ, ◌<◌, ◌≤◌, ◌^◌, ◌∷◌, [], ◌++◌, ◌⊎◌, List, All, IsTrue, map};
ghost use Rattle.pq_fields.specs.Packet.{rank, width_of};
ghost use Rattle.pq_model.specs.declared.action.Action.{Action};
ghost use Rattle.pq_model.specs.declared.action.Action.TheVariants.{Output};
ghost use Rattle.pq_model.specs.Lawful.{
  Ascends,
  HasBuckets,
  IsGroupNumber,
  IsLawfulAction,
  IsLawfulBucket,
  IsLawfulGoto,
  IsSettable,
  bucket_place,
};
ghost use Rattle.pq_model.specs.declared.reserved.TheConstants.{ALL_GROUPS};

use pq_fields::Field;
use pq_model::{ALL_GROUPS, Action, CONTROLLER, IN_PORT, LAST_PORT};

// The greatest number of a table.
const LAST_TABLE: u8 = 254;

// A field that is written has a number of its width.
fn is_set(field: Field, number: u64) -> bool
    ensures { IsTrue result ↔ (IsSettable field × (number < 2 ^ width_of field)) }
{
    match field {
        Field::EthSrc | Field::EthDst => number < 0x1_0000_0000_0000,
        Field::Ipv4Src | Field::Ipv4Dst => number < 0x1_0000_0000,
        Field::TcpSrc | Field::TcpDst | Field::UdpSrc | Field::UdpDst => number < 0x1_0000,
        _ => false,
    }
}

// Whether an action keeps the rules on actions.
fn is_lawful(action: Action) -> bool
    ensures { IsTrue result ↔ IsLawfulAction action }
{
    match action {
        Action::Output(port) => {
            (1 <= port && port <= LAST_PORT) || port == IN_PORT || port == CONTROLLER
        }
        Action::PushVlan | Action::PopVlan | Action::Group(_) => true,
        Action::SetVlan(word) => 0x1001 <= word && word <= 0x1ffe,
        Action::SetField(field, number) => is_set(field, number),
    }
}

// Whether each action keeps the rules on actions.
fn are_lawful(actions: &[Action]) -> bool
    ensures { IsTrue result ↔ All IsLawfulAction actions.now }
{
    for action in actions {
        if !is_lawful(*action) {
            return false;
        }
    }
    true
}

/// Whether an entry may be in a table of this number.
pub fn is_table(number: u8) -> bool
    ensures { IsTrue result ↔ (number ≤ 254) }
{
    number <= LAST_TABLE
}

// Whether an entry of the table may go on in another: a greater one, if in any.
fn is_goto(table: u8, goto: Option<u8>) -> bool
    ensures { IsTrue result ↔ IsLawfulGoto table goto }
{
    match goto {
        None => true,
        Some(next) => table < next && next <= LAST_TABLE,
    }
}

/// Whether an entry with these actions that goes on so may be added to the table.
pub fn is_addition(table: u8, actions: &[Action], goto: Option<u8>) -> bool
    ensures { IsTrue result ↔ ((table ≤ 254) × All IsLawfulAction actions.now × IsLawfulGoto table goto) }
{
    if !is_table(table) {
        return false;
    }
    if !is_goto(table, goto) {
        return false;
    }
    are_lawful(actions)
}

/// Whether a group may have the number.
pub fn is_group_number(number: u32) -> bool
    ensures { IsTrue result ↔ IsGroupNumber number }
{
    1 <= number && number <= LAST_PORT
}

/// Whether the number is that of a group that is removed, or stands for all groups.
pub fn is_removed(number: u32) -> bool
    ensures { IsTrue result ↔ (IsGroupNumber number ⊎ (number ≡ ALL_GROUPS)) }
{
    is_group_number(number) || number == ALL_GROUPS
}

// A field's place in field order.
fn rank(field: Field) -> u8
    ensures { result ≡ rank field }
{
    match field {
        Field::Switch => 0,
        Field::Port => 1,
        Field::EthType => 2,
        Field::IpProto => 3,
        Field::EthSrc => 4,
        Field::EthDst => 5,
        Field::Ipv4Src => 6,
        Field::Ipv4Dst => 7,
        Field::TcpSrc => 8,
        Field::TcpDst => 9,
        Field::UdpSrc => 10,
        Field::UdpDst => 11,
        Field::Ipv6Src => 12,
        Field::Ipv6Dst => 13,
    }
}

// The place of an action in a bucket.
fn place(action: Action) -> u8
    ensures { result ≡ bucket_place action }
{
    match action {
        Action::PopVlan => 0,
        Action::PushVlan => 1,
        Action::SetVlan(_) => 2,
        Action::SetField(field, _) => 3 + rank(field),
        Action::Output(_) => 17,
        Action::Group(_) => 18,
    }
}

// Whether the actions are in their places, each at most once.
fn are_placed(actions: &[Action]) -> bool
    ensures { IsTrue result ↔ Ascends (map bucket_place actions.now) }
{
    let mut rest = actions;
    while let [first, second, ..] = rest {
        if place(*first) >= place(*second) {
            return false;
        }
        rest = &rest[1..];
    }
    true
}

// Whether the last action is an Output.
fn end_with_output(actions: &[Action]) -> bool
    ensures { IsTrue result ↔ ((front : List Action) × (port : ℕ) × (actions.now ≡ front ++ Output port ∷ [])) }
{
    matches!(actions, [.., Action::Output(_)])
}

// Whether the actions may be in a bucket.
fn is_bucket(actions: &[Action]) -> bool
    ensures { IsTrue result ↔ IsLawfulBucket actions.now }
{
    if !are_lawful(actions) {
        return false;
    }
    if !are_placed(actions) {
        return false;
    }
    end_with_output(actions)
}

// Whether each bucket's actions may be in a bucket.
fn each_is_bucket(buckets: &[Vec<Action>]) -> bool
    ensures { IsTrue result ↔ All IsLawfulBucket (map (λ b. b.items) buckets.now) }
{
    for bucket in buckets {
        if !is_bucket(bucket) {
            return false;
        }
    }
    true
}

/// Whether there is a bucket, and each one's actions may be in a bucket.
pub fn are_buckets(buckets: &[Vec<Action>]) -> bool
    ensures { IsTrue result ↔ HasBuckets (map (λ b. b.items) buckets.now) }
{
    if buckets.is_empty() {
        return false;
    }
    each_is_bucket(buckets)
}
