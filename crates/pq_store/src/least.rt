ghost use Rattle.std.specs.Prelude.{◌≡◌, ◌<◌, ◌≤◌, ◌+◌, ◌-◌, ◌^◌, true, false, Some, length, slice_get, IfOk, IfSome, OnOk};
ghost use Rattle.pq_fields.specs.Packet.{number_in, width_of, with_number};
ghost use Rattle.pq_store.specs.Test.{is_address};
ghost use Rattle.pq_store.specs.Tree.{Tree};
ghost use Rattle.pq_store.specs.Store.{AreDiagrams};
ghost use Rattle.pq_store.specs.Least.{AreLeast};
ghost use Rattle.pq_store.specs.Search.{
  GoesOn,
  IsClear,
  IsFirstAt,
  IsLink,
  Visits,
  VisitsFrom,
  IsUntestedBelow,
  raised,
};

use crate::leaf::Leaf;
use crate::node_id::NodeId;
use crate::store::Store;
use crate::test::Test;
use crate::view::View;
use pq_fields::{Field, Packet, fits};
use std::alloc::AllocError;

/// A leaf under a node, with the least packet that reaches it.
#[derive(Clone, Copy, Debug, PartialEq, Eq)]
pub struct Least {
    pub packet: Packet,
    pub leaf: NodeId,
}

/// A number that a node tests, with its sides.
#[derive(Clone, Copy)]
struct Link {
    value: u64,
    yes: NodeId,
    no: NodeId,
}

impl<L: Leaf> Store<L> {
    /// Each leaf under the node with the least packet that reaches it, by ascending packets.
    pub fn least(&self, node: NodeId) -> Result<Vec<Least>, AllocError>
        requires { node < length self.now }
        ensures { IfOk result (λ found. AreLeast self.now node found.items) }
    {
        let mut seen = vec![in self.allocator(); false; self.count() as usize]?;
        let mut found = Vec::new(self.allocator());
        self.visit(node, Packet::zero(), &mut seen, &mut found)?;
        Ok(found)
    }

    /// Finds the leaves under the node, where the packet is the first that reaches it and all before it is found.
    ///
    /// Packets are met in ascending order, so the first visit of a leaf finds its least packet. A node is seen where all
    /// leaves under it are found: it isn't entered again. It recurs as deep as a path of the diagram.
    #[cycle(search)]
    fn visit(
        &self,
        node: NodeId,
        first: Packet,
        seen: &mut Vec<bool>,
        found: &mut Vec<Least>,
    ) -> Result<(), AllocError>
        requires node { node < length self.now }
        requires seen { length seen.old.items ≡ length self.now }
        requires first { IsFirstAt self.now node first }
        ensures seen { OnOk result (length seen.new.items ≡ length self.now) }
        ensures visits { OnOk result ((t : Tree L) → slice_get self.now node ≡ Some t
            → Visits self.now t first found.old.items seen.old.items found.new.items seen.new.items) }
    {
        if seen[node.0 as usize] {
            return Ok(());
        }
        fits(first);
        match self.view(node) {
            View::Leaf(_) => {
                seen[node.0 as usize] = true;
                found.push(Least {
                    packet: first,
                    leaf: node,
                })?;
                Ok(())
            }
            View::Node(test, yes, no) => match test {
                Test::Bit(field, index) => {
                    self.visit(no, first, seen, found)?;
                    self.visit(yes, with_bit(first, field, index), seen, found)?;
                    seen[node.0 as usize] = true;
                    Ok(())
                }
                Test::Equal(field, _) => {
                    self.visit_from(node, field, Some(0), first, seen, found)?;
                    Ok(())
                }
            },
        }
    }

    /// Finds the leaves under a node whose tests of the field's numbers go on from others.
    ///
    /// The gap is the next number that may be untested, as long as what is after the tests isn't visited.
    #[cycle(search)]
    fn visit_from(
        &self,
        node: NodeId,
        field: Field,
        gap: Option<u64>,
        first: Packet,
        seen: &mut Vec<bool>,
        found: &mut Vec<Least>,
    ) -> Result<(), AllocError>
        requires node { node < length self.now }
        requires seen { length seen.old.items ≡ length self.now }
        requires narrow { is_address field ≡ false }
        requires clear { IsClear field first }
        requires goes_on { (t : Tree L) → slice_get self.now node ≡ Some t → GoesOn field gap t }
        ensures seen { OnOk result (length seen.new.items ≡ length self.now) }
        ensures visits { OnOk result ((t : Tree L) → slice_get self.now node ≡ Some t
            → VisitsFrom self.now t field gap first found.old.items seen.old.items found.new.items seen.new.items) }
    {
        if seen[node.0 as usize] {
            return Ok(());
        }
        let Some(link) = self.link(node, field) else {
            if let Some(free) = gap {
                self.visit(node, first.with(field, free), seen, found)?;
            }
            return Ok(());
        };
        if let Some(free) = untested_below(gap, link.value) {
            let behind = self.past(Test::Equal(field, link.value), node);
            self.visit(behind, first.with(field, free), seen, found)?;
            self.visit(link.yes, first.with(field, link.value), seen, found)?;
            self.visit_from(link.no, field, None, first, seen, found)?;
            seen[node.0 as usize] = true;
            return Ok(());
        }
        self.visit(link.yes, first.with(field, link.value), seen, found)?;
        self.visit_from(link.no, field, raised(gap), first, seen, found)?;
        seen[node.0 as usize] = true;
        Ok(())
    }

    /// The number of the field that a node tests, with its sides.
    fn link(&self, node: NodeId, field: Field) -> Option<Link>
        requires { node < length self.now }
        ensures link { IsLink self.now node field result }
        ensures diagrams { AreDiagrams self.now }
    {
        match self.view(node) {
            View::Node(test, yes, no) => match test {
                Test::Equal(own, value) => {
                    if own == field {
                        Some(Link { value, yes, no })
                    } else {
                        None
                    }
                }
                Test::Bit(_, _) => None,
            },
            View::Leaf(_) => None,
        }
    }
}

/// The packet with the bit of an address set that is clear in it.
fn with_bit(x: Packet, field: Field, index: u8) -> Packet
    requires address { is_address field ≡ true }
    requires within { index < width_of field }
    requires fits { number_in field x + 2 ^ (width_of field - 1 - index) < 2 ^ width_of field }
    ensures { result ≡ with_number field (number_in field x + 2 ^ (width_of field - 1 - index)) x }
{
    match field {
        Field::Ipv4Src | Field::Ipv4Dst => x.with(field, x.get(field) + (1 << (31 - index))),
        Field::Ipv6Src => x.with_wide(field, x.ipv6_src + (1 << (127 - index))),
        Field::Ipv6Dst => x.with_wide(field, x.ipv6_dst + (1 << (127 - index))),
        _ => unreachable!(),
    }
}

/// The number of the gap, where it is below the value.
fn untested_below(gap: Option<u64>, value: u64) -> Option<u64>
    ensures { IsUntestedBelow gap value result }
{
    match gap {
        Some(free) if free < value => Some(free),
        _ => None,
    }
}

/// The number after that of the gap.
fn raised(gap: Option<u64>) -> Option<u64>
    requires { IfSome gap (λ free. free + 1 < 2 ^ 64) }
    ensures { result ≡ raised gap }
{
    match gap {
        Some(free) => Some(free + 1),
        None => None,
    }
}
