ghost use Rattle.std.specs.Prelude.{◌≡◌, IfErr, IfOk};
ghost use Rattle.pq_replay.specs.declared.fault.ReplayFault.{ReplayFault as Fault};
ghost use Rattle.pq_replay.specs.Replay.{IsReplay, IsReplayFault};
ghost use Rattle.pq_command.specs.Answers.{IsOfText};
ghost use Rattle.pq_command.specs.Tasks.{replay_outcome};

use crate::outcome::Outcome;
use pq_replay::{ReplayFault, replay_text};
use std::alloc::Global;

/// Where every packet is after an install and a schedule, or why there is no telling.
pub(crate) fn replayed(alloc: Global, bytes: &[u8]) -> Result<Vec<u8>, Outcome>
    ensures ok { IfOk result (λ state. IsReplay bytes.now state.items) }
    ensures err { IfErr result (λ outcome. (f : Fault) × (outcome ≡ replay_outcome f) × IsReplayFault bytes.now f) }
    ensures of_text { IfErr result IsOfText }
{
    match replay_text(alloc, bytes) {
        Ok(state) => Ok(state),
        Err(ReplayFault::Damaged { at }) => Err(Outcome::Damaged { at }),
        Err(ReplayFault::Syntax { at }) => Err(Outcome::Syntax { at }),
        Err(ReplayFault::Full) => Err(Outcome::ScheduleFull),
        Err(ReplayFault::Memory) => Err(Outcome::Memory),
    }
}
