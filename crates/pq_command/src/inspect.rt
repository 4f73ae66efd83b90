ghost use Rattle.std.specs.Prelude.{◌≡◌, IfErr, IfOk};
ghost use Rattle.pq_install.specs.declared.fault.InstallFault.{InstallFault as Fault};
ghost use Rattle.pq_inspect.specs.Inspected.{IsInspectFault, IsInspected};
ghost use Rattle.pq_command.specs.Answers.{IsOfText};
ghost use Rattle.pq_command.specs.Tasks.{install_outcome};

use crate::outcome::Outcome;
use pq_inspect::inspect_bytes;
use pq_install::InstallFault;
use std::alloc::Global;

/// An install as JSON text, or where the bytes are damaged. They are given up before the text is made.
pub(crate) fn inspected(alloc: Global, bytes: Vec<u8>) -> Result<Vec<u8>, Outcome>
    ensures ok { IfOk result (λ text. IsInspected bytes.items text.items) }
    ensures err { IfErr result (λ outcome. (f : Fault) × (outcome ≡ install_outcome f) × IsInspectFault bytes.items f) }
    ensures of_text { IfErr result IsOfText }
{
    match inspect_bytes(alloc, bytes) {
        Ok(text) => Ok(text),
        Err(InstallFault::Damaged { at }) => Err(Outcome::Damaged { at }),
        Err(InstallFault::Memory) => Err(Outcome::Memory),
    }
}
