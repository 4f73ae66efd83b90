ghost use Rattle.std.specs.Prelude.{IfErr, IfOk, length};
ghost use Rattle.pq_model.specs.Install.{IsLawfulInstall};
ghost use Rattle.pq_install.specs.Reading.{IsInstallIn};
ghost use Rattle.pq_inspect.specs.Inspected.{IsInspectFault, IsInspected};

use crate::inspection::inspect_given;
use pq_install::{Install, InstallFault, read_install};
use std::alloc::Global;

// The install that all of the bytes are; they are given up.
fn read_alone(alloc: Global, bytes: Vec<u8>) -> Result<Install, InstallFault>
    ensures ok { IfOk result (λ install. IsInstallIn bytes.items install (length bytes.items)) }
    ensures lawful { IfOk result IsLawfulInstall }
    ensures err { IfErr result (λ fault. IsInspectFault bytes.items fault) }
{
    match read_install(alloc, &bytes) {
        Ok((_, size)) if size < bytes.len() => Err(InstallFault::Damaged { at: size }),
        Ok((install, _)) => Ok(install),
        Err(fault) => Err(fault),
    }
}

/// The JSON text of the install that the bytes are. `Damaged` comes where they begin with no install, and where bytes
/// follow it, which then begin at the place. The bytes are given up before the text is made, and the install while it is.
pub fn inspect_bytes(alloc: Global, bytes: Vec<u8>) -> Result<Vec<u8>, InstallFault>
    ensures ok { IfOk result (λ text. IsInspected bytes.items text.items) }
    ensures err { IfErr result (λ fault. IsInspectFault bytes.items fault) }
{
    let install = match read_alone(alloc, bytes) {
        Ok(install) => install,
        Err(fault) => return Err(fault),
    };
    match inspect_given(alloc, install) {
        Ok(text) => Ok(text),
        Err(_) => Err(InstallFault::Memory),
    }
}
