ghost use Rattle.std.specs.Prelude.{◌≡◌, ◌++◌, IfOk, OnErr, OnOk};
ghost use Rattle.pq_model.specs.Install.{IsLawfulInstall, spelling};

use crate::install::Install;
use crate::lists::write_lists;
use crate::names::write_names;
use crate::report::write_rows;
use crate::topology::{write_links, write_switches};
use std::alloc::{AllocError, Global};

// The spelling in a vector of its own.
#[tactic(auto, unfolding(pq_model::specs::Install::install_bytes))]
fn spelling(alloc: Global, value: &Install) -> Result<Vec<u8>, AllocError>
    requires { IsLawfulInstall value.now }
    ensures { IfOk result (λ bytes. bytes.items ≡ spelling value.now) }
{
    let mut bytes = Vec::new(alloc);
    bytes.extend_from_slice(b"PQI2")?;
    write_switches(value.topology.switches(), &mut bytes)?;
    write_links(value.topology.links(), &mut bytes)?;
    write_names(&value.names, &mut bytes)?;
    write_rows(&value.report, &mut bytes)?;
    write_lists(alloc, &value.messages, &mut bytes)?;
    Ok(bytes)
}

/// Appends the spelling of an install: the magic `PQI2`, the switches, the links, the names of the
/// queries, the rows of the report, and the messages to each switch. The install keeps the rules of
/// installs. Where there is no memory for it `into` is as before.
pub fn write_install(alloc: Global, value: &Install, into: &mut Vec<u8>) -> Result<(), AllocError>
    requires { IsLawfulInstall value.now }
    ensures ok { OnOk result (into.new.items ≡ into.old.items ++ spelling value.now) }
    ensures err { OnErr result (into.new.items ≡ into.old.items) }
{
    let spelling = spelling(alloc, value)?;
    into.extend_from_slice(&spelling)
}
