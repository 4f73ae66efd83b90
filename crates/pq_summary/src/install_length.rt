//! How many bytes an install takes.
ghost use Rattle.std.specs.Prelude.{◌≡◌, ◌^◌, ◌<◌};
ghost use Rattle.pq_summary.specs.Lengths.{install_length, name_length, pair_length, row_length, switch_length};

use crate::spelled::{Spelled, total};
use pq_install::{Install, ReportRow};
use pq_model::Instance;
use pq_term::Name;
use pq_topo::Switch;

impl Spelled for Switch {
    ghost bytes = { switch_length };

    fn length(&self) -> usize {
        10 + 4 * self.ports.len()
    }
}

impl Spelled for Name {
    ghost bytes = { name_length };

    fn length(&self) -> usize {
        1 + self.bytes().len()
    }
}

impl Spelled for Instance {
    ghost bytes = { pair_length };

    fn length(&self) -> usize {
        6 + 8 * self.label.values().len()
    }
}

impl Spelled for ReportRow {
    ghost bytes = { row_length };

    fn length(&self) -> usize {
        4 + total(&self.pairs)
    }
}

/// How many bytes the spelling of an install takes.
#[tactic(auto, unfolding(crate::specs::Lengths::install_length))]
pub fn install_length(install: &Install) -> usize
    requires { install_length install.now < 2 ^ 64 }
    ensures { result ≡ install_length install.now }
{
    12 + total(install.topology.switches())
        + 24 * install.topology.links().len()
        + total(&install.names)
        + total(&install.report)
        + total(&install.messages)
}
