ghost use Rattle.std.specs.Prelude.{◌≡◌, ◌++◌, All, OnOk, length, map};
ghost use Rattle.serde_json.specs.Written.{compact_text};
ghost use Rattle.pq_model.specs.Install.{IsLawfulList};
ghost use Rattle.pq_inspect.specs.Inspection.{switch_data, switches_data};

use crate::message::{entries, groups, write_messages};
use crate::written::{separate, write_list, write_shown};
use pq_flowmod::Message;
use pq_topo::Switch;
use std::alloc::{AllocError, Global};

// Appends a switch with the messages to it.
fn write_switch(
    alloc: Global,
    switch: &Switch,
    to_it: &[Message],
    into: &mut Vec<u8>,
) -> Result<(), AllocError>
    requires { IsLawfulList to_it.now }
    ensures { OnOk result
        (into.new.items ≡ into.old.items ++ compact_text (switch_data (switch.now, to_it.now))) }
{
    into.extend_from_slice(b"{\"datapath\":")?;
    write_shown(alloc, &switch.datapath, into)?;
    into.extend_from_slice(b",\"entries\":")?;
    write_shown(alloc, &(entries(to_it) as u64), into)?;
    into.extend_from_slice(b",\"groups\":")?;
    write_shown(alloc, &(groups(to_it) as u64), into)?;
    into.extend_from_slice(b",\"messages\":")?;
    write_messages(alloc, to_it, into)?;
    into.extend_from_slice(b",\"ports\":")?;
    write_list(alloc, &switch.ports, into)?;
    into.push(b'}')?;
    Ok(())
}

/// Appends the list of the switches, each with the messages to it.
pub fn write_switches(
    alloc: Global,
    switches: &[Switch],
    lists: &[Vec<Message>],
    into: &mut Vec<u8>,
) -> Result<(), AllocError>
    requires listed { length lists.now ≡ length switches.now }
    requires lawful { All IsLawfulList (map (λ ms. ms.items) lists.now) }
    ensures { OnOk result (into.new.items ≡ into.old.items
        ++ compact_text (switches_data switches.now (map (λ ms. ms.items) lists.now))) }
{
    into.push(b'[')?;
    for index in 0..switches.len() {
        separate(index, into)?;
        write_switch(alloc, &switches[index], &lists[index], into)?;
    }
    into.push(b']')?;
    Ok(())
}

/// The same, but each list is given up once it is written.
pub fn give_switches(
    alloc: Global,
    switches: &[Switch],
    lists: Vec<Vec<Message>>,
    into: &mut Vec<u8>,
) -> Result<(), AllocError>
    requires listed { length lists.items ≡ length switches.now }
    requires lawful { All IsLawfulList (map (λ ms. ms.items) lists.items) }
    ensures { OnOk result (into.new.items ≡ into.old.items
        ++ compact_text (switches_data switches.now (map (λ ms. ms.items) lists.items))) }
{
    into.push(b'[')?;
    let mut index = 0;
    for to_it in lists {
        separate(index, into)?;
        write_switch(alloc, &switches[index], &to_it, into)?;
        index += 1;
    }
    into.push(b']')?;
    Ok(())
}
