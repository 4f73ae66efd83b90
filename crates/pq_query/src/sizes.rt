//! How many values `switch` and `port` have over a topology; no memory is taken.
ghost use Rattle.std.specs.Prelude.{◌≡◌, ◌==◌, All, length};
ghost use Rattle.std.specs.List.{flat_map, list_any};
ghost use Rattle.pq_model.specs.Install.{IsLawfulSwitch};
ghost use Rattle.pq_model.specs.Lawful.{Ascends};
ghost use Rattle.pq_query.specs.Counts.{capped, count_other, count_others, sizes_of};
ghost use Rattle.pq_query.specs.Labels.{ascending};

use pq_topo::{Switch, Topology};

/// The numbers of values of `switch` and of `port` that a topology lists.
#[derive(Clone, Copy)]
pub(crate) struct Sizes {
    pub(crate) switches: u32,
    pub(crate) ports: u32,
}

/// The numbers of values of `switch` and of `port` that the topology lists.
pub(crate) fn sizes_of(topology: &Topology) -> Sizes
    ensures { result ≡ sizes_of topology.now }
{
    let switches = topology.switches();
    Sizes {
        switches: switches.len() as u32,
        ports: count_ports(switches),
    }
}

/// The number of port numbers that the switches have.
fn count_ports(switches: &[Switch]) -> u32
    requires { All IsLawfulSwitch switches.now }
    ensures { result ≡ capped (length (ascending (flat_map (λ s. s.ports) switches.now))) }
{
    let mut count = 0;
    let mut rest = switches;
    while let [switch, later @ ..] = rest {
        count = count_new(switch, later, count);
        rest = later;
    }
    count
}

/// This many port numbers and those of the switch that no later one has.
fn count_new(switch: &Switch, later: &[Switch], count: u32) -> u32
    requires { All IsLawfulSwitch later.now }
    ensures { result ≡ count_others switch.now.ports (flat_map (λ s. s.ports) later.now) count }
{
    count_others(&switch.ports, later, count)
}

/// This many port numbers and those of the list that none of the switches has.
fn count_others(ports: &[u32], switches: &[Switch], count: u32) -> u32
    requires { All IsLawfulSwitch switches.now }
    ensures { result ≡ count_others ports.now (flat_map (λ s. s.ports) switches.now) count }
{
    let mut total = count;
    for port in ports {
        total = count_other(*port, switches, total);
    }
    total
}

/// This many port numbers and this one, where none of the switches has it.
fn count_other(port: u32, switches: &[Switch], count: u32) -> u32
    requires { All IsLawfulSwitch switches.now }
    ensures { result ≡ count_other port (flat_map (λ s. s.ports) switches.now) count }
{
    if have_port(switches, port) {
        return count;
    }
    count.saturating_add(1)
}

/// Whether one of the switches has a port of this number.
#[tactic(auto, using(crate::proofs::Ports::either_has))]
fn have_port(switches: &[Switch], port: u32) -> bool
    requires { All IsLawfulSwitch switches.now }
    ensures { result ≡ list_any (λ p. p == port) (flat_map (λ s. s.ports) switches.now) }
{
    for switch in switches {
        if has_port(&switch.ports, port) {
            return true;
        }
    }
    false
}

/// Whether the port is one of these, which ascend.
fn has_port(ports: &[u32], port: u32) -> bool
    requires { Ascends ports.now }
    ensures { result ≡ list_any (λ p. p == port) ports.now }
{
    ports.binary_search(&port).is_ok()
}
