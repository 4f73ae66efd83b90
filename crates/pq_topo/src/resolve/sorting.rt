//! Lists in the order of their numbers.
ghost use Rattle.std.specs.Prelude.{◌≡◌, [], ◌∷◌, OnOk};
ghost use Rattle.std.specs.Cmp.Lexicographic.{slice_cmp};
ghost use Rattle.std.specs.Ordering.{nat_cmp};
ghost use Rattle.pq_model.specs.Install.{link_numbers};
ghost use Rattle.pq_model.specs.Sorting.{sort_by};

use crate::link::Link;
use crate::switch::Switch;
use std::alloc::AllocError;
use std::cmp::Ordering;

/// Sorts ports. It fails only where there is no memory for sorting, as the other two.
pub(crate) fn sort_ports(ports: &mut Vec<u32>) -> Result<(), AllocError>
    ensures { OnOk result (ports.new.items ≡ sort_by (λ p. p ∷ []) ports.old.items) }
{
    ports.sort_by(
        |x: &u32, y: &u32| -> Ordering
            ensures { result ≡ nat_cmp x.now y.now }
        { x.cmp(y) },
    )
}

/// Sorts switches by their datapath numbers.
pub(crate) fn sort_switches(switches: &mut Vec<Switch>) -> Result<(), AllocError>
    ensures { OnOk result (switches.new.items ≡ sort_by (λ s. s.datapath ∷ []) switches.old.items) }
{
    switches.sort_by(
        |x: &Switch, y: &Switch| -> Ordering
            ensures { result ≡ nat_cmp x.now.datapath y.now.datapath }
        { x.datapath.cmp(&y.datapath) },
    )
}

/// Sorts links by their first ends, and then by their second ones.
pub(crate) fn sort_links(links: &mut Vec<Link>) -> Result<(), AllocError>
    ensures { OnOk result (links.new.items ≡ sort_by link_numbers links.old.items) }
{
    links.sort_by(
        |x: &Link, y: &Link| -> Ordering
            ensures { result ≡ slice_cmp nat_cmp (link_numbers x.now) (link_numbers y.now) }
        { compare(x, y) },
    )
}

#[tactic(auto, using(crate::proofs::Compared::four_then))]
fn compare(x: &Link, y: &Link) -> Ordering
    ensures { result ≡ slice_cmp nat_cmp (link_numbers x.now) (link_numbers y.now) }
{
    x.first
        .0
        .cmp(&y.first.0)
        .then(x.first.1.cmp(&y.first.1))
        .then(x.second.0.cmp(&y.second.0))
        .then(x.second.1.cmp(&y.second.1))
}
