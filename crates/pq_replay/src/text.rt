ghost use Rattle.std.specs.Prelude.{IfErr, IfOk};
ghost use Rattle.pq_replay.specs.Replay.{IsReplay, IsReplayFault};

use crate::fault::ReplayFault;
use crate::state::state_text;
use pq_install::{InstallFault, read_install};
use pq_schedule::{ScheduleFault, read_schedule};
use std::alloc::Global;

/// The state of a network after a schedule, as text: the bytes are an install and, at once after it, the schedule.
/// The install is judged first, and then the schedule line by line.
pub fn replay_text(alloc: Global, bytes: &[u8]) -> Result<Vec<u8>, ReplayFault>
    ensures ok { IfOk result (λ written. IsReplay bytes.now written.items) }
    ensures err { IfErr result (λ fault. IsReplayFault bytes.now fault) }
{
    let (install, size) = match read_install(alloc, bytes) {
        Ok((install, size)) => (install, size),
        Err(InstallFault::Damaged { at }) => return Err(ReplayFault::Damaged { at }),
        Err(InstallFault::Memory) => return Err(ReplayFault::Memory),
    };
    let events = match read_schedule(alloc, &bytes[size..]) {
        Ok(events) => events,
        Err(ScheduleFault::Syntax { at }) => return Err(ReplayFault::Syntax { at: size + at }),
        Err(ScheduleFault::Full) => return Err(ReplayFault::Full),
        Err(ScheduleFault::Memory) => return Err(ReplayFault::Memory),
    };
    match state_text(alloc, install, &events) {
        Ok(text) => Ok(text),
        Err(_) => Err(ReplayFault::Memory),
    }
}
