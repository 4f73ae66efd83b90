ghost use Rattle.std.specs.Prelude.{drop, IfErr, IfOk, MatchOption};
ghost use Rattle.pq_model.specs.Install.{IsLawfulInstall};
ghost use Rattle.pq_install.specs.Damage.{InstallFails, IsVersion, magic_bytes};
ghost use Rattle.pq_install.specs.Front.{IsAtFront, NoneAtFront};
ghost use Rattle.pq_install.specs.Reading.{IsInstallAtFront, IsInstallFault, IsInstallIn};
ghost use Rattle.pq_install.specs.Units.{Tells};

use crate::fault::{Fault, InstallFault};
use crate::install::Install;
use crate::read::lists::lists_at;
use crate::read::reporting::report_at;
use crate::read::topology::topology_at;
use crate::version::Version;
use std::alloc::Global;

// The magic at the front.
fn version_at(bytes: &[u8]) -> Option<(Version, &[u8])>
    ensures { MatchOption result (NoneAtFront IsVersion magic_bytes bytes.now)
        (λ r. IsAtFront IsVersion magic_bytes bytes.now r.0 r.1.now) }
{
    match bytes {
        [b'P', b'Q', b'I', b'1', rest @ ..] => Some((Version::Old, rest)),
        [b'P', b'Q', b'I', b'2', rest @ ..] => Some((Version::New, rest)),
        _ => None,
    }
}

// The install at the front.
fn install_at(alloc: Global, bytes: &[u8]) -> Result<(Install, &[u8]), Fault>
    ensures ok { IfOk result (λ r. IsInstallAtFront bytes.now r.0 r.1.now) }
    ensures err { IfErr result (Tells (InstallFails bytes.now)) }
{
    let Some((version, rest)) = version_at(bytes) else {
        return Err(Fault::Damaged { left: bytes.len() });
    };
    let (topology, rest) = topology_at(alloc, rest)?;
    let (names, report, rest) = report_at(alloc, rest)?;
    let (messages, rest) = lists_at(alloc, version, topology.switches().len(), rest)?;
    let install = Install {
        topology,
        names,
        report,
        messages,
    };
    Ok((install, rest))
}

/// The install that the bytes begin with, in its spelling or its old one, and the length of that.
/// The switches are named `n` and their datapath numbers, and their limits are 0. `Damaged` comes
/// exactly where no install begins the bytes, with the first byte of the first unit that is missing,
/// cut or unlawful after the units before it.
pub fn read_install(alloc: Global, bytes: &[u8]) -> Result<(Install, usize), InstallFault>
    ensures ok { IfOk result (λ r. IsInstallIn bytes.now r.0 r.1) }
    ensures front { IfOk result (λ r. IsInstallAtFront bytes.now r.0 (drop r.1 bytes.now)) }
    ensures lawful { IfOk result (λ r. IsLawfulInstall r.0) }
    ensures err { IfErr result (IsInstallFault bytes.now) }
{
    match install_at(alloc, bytes) {
        Ok((install, rest)) => Ok((install, bytes.len() - rest.len())),
        Err(Fault::Damaged { left }) => Err(InstallFault::Damaged {
            at: bytes.len() - left,
        }),
        Err(Fault::Memory) => Err(InstallFault::Memory),
    }
}
