ghost use Rattle.std.specs.Prelude.{◌≡◌, IfOk};

use pq_term::Name;
use std::alloc::{AllocError, Global};
use std::marker::Model;

/// A switch of a network.
#[derive(Debug, Drop)]
pub struct Switch {
    pub name: Name,
    /// The number that the switch states when it connects (OpenFlow 1.3.5, section 7.3.1).
    pub datapath: u64,
    /// The port numbers, ascending.
    pub ports: Vec<u32>,
    /// The most entries that a table of the switch holds.
    pub limit: u32,
}

impl Model for Switch {
    ghost use Rattle.pq_model.specs.Topology.{Switch as SwitchValue};

    ghost Value = { SwitchValue };

    ghost view = { λ s. record { name = s.name; datapath = s.datapath; ports = s.ports.items; limit = s.limit } };
}

impl Switch {
    /// An equal switch; it fails only where there is no memory for it.
    pub(crate) fn copy(&self, alloc: Global) -> Result<Switch, AllocError>
        ensures { IfOk result (λ switch. switch ≡ self.now) }
    {
        let ports = Vec::from_slice(alloc, &self.ports)?;
        Ok(Switch {
            name: self.name,
            datapath: self.datapath,
            ports,
            limit: self.limit,
        })
    }
}
