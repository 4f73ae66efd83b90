ghost use Rattle.std.specs.Prelude.{◌≡◌, OnOk};
ghost use Rattle.std.specs.Cmp.Lexicographic.{slice_cmp};
ghost use Rattle.std.specs.Ordering.{nat_cmp};
ghost use Rattle.pq_model.specs.SwitchMachine.{in_order};
ghost use Rattle.pq_model.specs.Tagged.{tagged_numbers};
ghost use Rattle.pq_switch.specs.SentOrder.{sent_numbers};

use pq_fields::packets_are_ordered_by_numbers;
use pq_model::{Sent, Tagged};
use std::alloc::AllocError;
use std::cmp::Ordering;

/// Puts the copies to ports first, and each part in packet order and then by VLAN number, a copy without a header
/// first.
pub(crate) fn sort(sent: &mut Vec<Sent>) -> Result<(), AllocError>
    ensures { OnOk result (sent.new.items ≡ in_order sent.old.items) }
{
    sent.sort_by(
        |x: &Sent, y: &Sent| -> Ordering
            ensures { result ≡ slice_cmp nat_cmp (sent_numbers x.now) (sent_numbers y.now) }
        { compare(x, y) },
    )
}

fn compare(left: &Sent, right: &Sent) -> Ordering
    ensures { result ≡ slice_cmp nat_cmp (sent_numbers left.now) (sent_numbers right.now) }
{
    match (left, right) {
        (Sent::Port(x), Sent::Port(y)) => compare_tagged(x, y),
        (Sent::Port(_), Sent::Controller(_)) => Ordering::Less,
        (Sent::Controller(_), Sent::Port(_)) => Ordering::Greater,
        (Sent::Controller(x), Sent::Controller(y)) => compare_tagged(x, y),
    }
}

// In packet order and then by VLAN number, a packet without a header first.
fn compare_tagged(x: &Tagged, y: &Tagged) -> Ordering
    ensures { result ≡ slice_cmp nat_cmp (tagged_numbers x.now) (tagged_numbers y.now) }
{
    packets_are_ordered_by_numbers();
    x.packet.cmp(&y.packet).then(x.vlan.cmp(&y.vlan))
}
