ghost use Rattle.std.specs.Prelude.{◌≡◌, IfOk};
ghost use Rattle.pq_model.specs.SwitchMachine.{sends};

use crate::groups::Groups;
use crate::listing::Listing;
use crate::sending::sent_from;
use pq_model::{Sent, Tagged};
use std::alloc::{AllocError, Global};
use std::marker::Model;

/// The tables of a switch that no longer change, laid out for look-ups.
#[derive(Drop)]
pub struct Settled {
    pub(crate) entries: Listing,
    pub(crate) groups: Groups,
}

impl Model for Settled {
    ghost use Rattle.pq_model.specs.SwitchMachine.{Tables as TablesValue};
    ghost use Rattle.std.specs.Prelude.{List, refl};
    ghost use Rattle.std.specs.Coded.{code_by, coded×};
    ghost use Rattle.pq_model.specs.SwitchMachine.{Entry, Groups};
    ghost use Rattle.pq_switch.specs.contracts.entries.Entries as listing;
    ghost use Rattle.pq_switch.specs.contracts.groups.Groups as grouped;

    ghost Value = { TablesValue };

    ghost coded = { code_by (List Entry × Groups) (coded× listing.the_row.coded grouped.the_row.coded) (λ t. (t.entries, t.groups)) (λ p. record { entries = p.0; groups = p.1 }) (λ _. refl) };

    ghost use Rattle.pq_switch.specs.Listed.{listed};

    ghost view = { λ t. record { entries = listed t.entries; groups = t.groups } };
}

impl Settled {
    /// The copies that a switch with these tables sends for an arriving packet (OpenFlow 1.3.5, section 5.1), as `hop`.
    pub fn hop(&self, alloc: Global, arriving: &Tagged) -> Result<Vec<Sent>, AllocError>
        ensures { IfOk result (λ sent. sent.items ≡ sends self.now arriving.now) }
    {
        sent_from(alloc, self, arriving)
    }
}
