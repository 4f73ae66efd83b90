//! Whether a predicate holds of a packet.
ghost use Rattle.std.specs.Prelude.{◌≡◌, ◌<◌, ◌^◌, ◌/◌, ◌-◌, ◌==◌, ◌&&◌, map};
ghost use Rattle.std.specs.List.{list_all, list_any};
ghost use Rattle.pq_fields.specs.Packet.{has_field, number_in, width_of};
ghost use Rattle.pq_fields.specs.Pred.{holds, leading, truths, pred_tree, pred_trees};

use crate::field::Field;
use crate::packet::Packet;
use crate::pred::Pred;
use crate::presence::has;
use crate::widths::width;

/// Whether the predicate holds of the packet. It recurs as deep as the predicate nests, in a document at most 100.
#[cycle(holds)]
pub fn holds(pred: &Pred, x: &Packet) -> bool
    ensures { result ≡ holds (pred_tree pred.now) x.now }
{
    match pred {
        Pred::True => true,
        Pred::False => false,
        Pred::Equal(field, value) => equals(*field, *value, x),
        Pred::Prefix(field, value, len) => leads(*field, u128::from(*value), *len, x),
        Pred::Wide(field, value, len) => leads(*field, *value, *len, x),
        Pred::And(preds) => all_hold(preds, x),
        Pred::Or(preds) => any_holds(preds, x),
        Pred::Not(pred) => !holds(pred, x),
    }
}

/// Whether each of the predicates holds.
#[cycle(holds)]
fn all_hold(preds: &[Pred], x: &Packet) -> bool
    ensures { result ≡ list_all (λ b. b) (truths (pred_trees preds.now) x.now) }
{
    for pred in preds {
        if !holds(pred, x) {
            return false;
        }
    }
    true
}

/// Whether one of the predicates holds.
#[cycle(holds)]
fn any_holds(preds: &[Pred], x: &Packet) -> bool
    ensures { result ≡ list_any (λ b. b) (truths (pred_trees preds.now) x.now) }
{
    for pred in preds {
        if holds(pred, x) {
            return true;
        }
    }
    false
}

/// Whether the packet has the field, with this number.
fn equals(field: Field, value: u64, x: &Packet) -> bool
    ensures { result ≡ (has_field field x.now && (number_in field x.now == value)) }
{
    has(field, x) && x.number(field) == u128::from(value)
}

/// Whether the packet has the field, with a number whose leading bits, this many, are those of this one.
fn leads(field: Field, value: u128, len: u8, x: &Packet) -> bool
    ensures { result ≡ (has_field field x.now && (leading field len (number_in field x.now) == leading field len value)) }
{
    has(field, x) && leading(field, len, x.number(field)) == leading(field, len, value)
}

/// The leading bits of a field's number, this many.
fn leading(field: Field, len: u8, number: u128) -> u128
    ensures { result ≡ leading field len number }
{
    let behind = width(field).saturating_sub(u32::from(len));
    number.checked_shr(behind).unwrap_or(0)
}
