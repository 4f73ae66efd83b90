ghost use Rattle.std.specs.Prelude.{◌≡◌, ◌++◌, length, OnOk};
ghost use Rattle.std.specs.List.{flat_map};
ghost use Rattle.std.specs.Int.{w16, to_be_bytes};
ghost use Rattle.pq_model.specs.Install.{end_bytes, link_bytes, switch_bytes};

use crate::numbers::write_u32s;
use pq_oxm::write_length;
use pq_topo::{Link, Switch};
use std::alloc::AllocError;

// A switch: its datapath number, the count of its ports, and the ports.
fn write_switch(switch: &Switch, into: &mut Vec<u8>) -> Result<(), AllocError>
    ensures { OnOk result (into.new.items ≡ into.old.items ++ switch_bytes switch.now) }
{
    into.extend_from_slice(&switch.datapath.to_be_bytes())?;
    write_length(switch.ports.len(), into)?;
    write_u32s(&switch.ports, into)
}

/// Appends the count of the switches and the switches.
pub fn write_switches(switches: &[Switch], into: &mut Vec<u8>) -> Result<(), AllocError>
    ensures { OnOk result (into.new.items
        ≡ into.old.items ++ to_be_bytes w16 (length switches.now) ++ flat_map switch_bytes switches.now) }
{
    write_length(switches.len(), into)?;
    for switch in switches {
        write_switch(switch, into)?;
    }
    Ok(())
}

// An end of a link: a datapath number and a port.
fn write_end(end: (u64, u32), into: &mut Vec<u8>) -> Result<(), AllocError>
    ensures { OnOk result (into.new.items ≡ into.old.items ++ end_bytes end) }
{
    into.extend_from_slice(&end.0.to_be_bytes())?;
    into.extend_from_slice(&end.1.to_be_bytes())
}

fn write_link(link: Link, into: &mut Vec<u8>) -> Result<(), AllocError>
    ensures { OnOk result (into.new.items ≡ into.old.items ++ link_bytes link) }
{
    write_end(link.first, into)?;
    write_end(link.second, into)
}

/// Appends the count of the links and the links.
pub fn write_links(links: &[Link], into: &mut Vec<u8>) -> Result<(), AllocError>
    ensures { OnOk result (into.new.items
        ≡ into.old.items ++ to_be_bytes w16 (length links.now) ++ flat_map link_bytes links.now) }
{
    write_length(links.len(), into)?;
    for link in links {
        write_link(*link, into)?;
    }
    Ok(())
}
