ghost use Rattle.std.specs.Prelude.{◌≡◌, ◌++◌, IfOk, OnOk};
ghost use Rattle.pq_model.specs.Install.{IsLawfulInstall};
ghost use Rattle.pq_inspect.specs.Inspection.{inspection_text};
ghost use Rattle.pq_inspect.specs.Front.{front_text};

use crate::switch::{give_switches, write_switches};
use crate::written::write_list;
use pq_install::{Install, ReportRow};
use pq_term::Name;
use pq_topo::Topology;
use std::alloc::{AllocError, Global};

// Appends what stands before the switches.
#[tactic(auto, unfolding(crate::specs::Front::front_text))]
fn write_front(
    alloc: Global,
    topology: &Topology,
    names: &[Name],
    report: &[ReportRow],
    into: &mut Vec<u8>,
) -> Result<(), AllocError>
    ensures { OnOk result
        (into.new.items ≡ into.old.items ++ front_text topology.now.links names.now report.now) }
{
    into.extend_from_slice(b"{\"links\":")?;
    write_list(alloc, topology.links(), into)?;
    into.extend_from_slice(b",\"queries\":")?;
    write_list(alloc, names, into)?;
    into.extend_from_slice(b",\"report\":")?;
    write_list(alloc, report, into)?;
    into.extend_from_slice(b",\"switches\":")
}

/// The text of an install: one JSON object (RFC 8259) without white space, and a line feed. It fails
/// only where there is no memory for the text. In each object the keys are in alphabetical order.
///
/// - `links`: for each link its four numbers, the datapath number and the port of its first end and
///   of its second.
/// - `queries`: the names of the queries.
/// - `report`: for each row its `pairs`, each with its `label`, a list of numbers, and the index of its
///   `query`; and its `tag`.
/// - `switches`: for each switch its `datapath` number; `entries`, the number of flow mods that add;
///   `groups`, the number of group mods that add; the `messages` to it, each as lower-case hexadecimal
///   text of its bytes; and its `ports`.
///
/// The install keeps the rules of installs.
pub fn inspect(alloc: Global, install: &Install) -> Result<Vec<u8>, AllocError>
    requires { IsLawfulInstall install.now }
    ensures { IfOk result (λ text. text.items ≡ inspection_text install.now) }
{
    let topology = &install.topology;
    let mut text = Vec::new(alloc);
    write_front(alloc, topology, &install.names, &install.report, &mut text)?;
    write_switches(alloc, topology.switches(), &install.messages, &mut text)?;
    text.extend_from_slice(b"}\n")?;
    Ok(text)
}

/// The same of an install that is given up: the messages to a switch go as soon as they are written.
pub fn inspect_given(alloc: Global, install: Install) -> Result<Vec<u8>, AllocError>
    requires { IsLawfulInstall install }
    ensures { IfOk result (λ text. text.items ≡ inspection_text install) }
{
    let Install {
        topology,
        names,
        report,
        messages,
    } = install;
    let mut text = Vec::new(alloc);
    write_front(alloc, &topology, &names, &report, &mut text)?;
    give_switches(alloc, topology.switches(), messages, &mut text)?;
    text.extend_from_slice(b"}\n")?;
    Ok(text)
}
