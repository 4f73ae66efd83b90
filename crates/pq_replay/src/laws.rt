ghost use Rattle.std.specs.Prelude.{◌≡◌, ℕ, List};
ghost use Rattle.pq_install.specs.Damage.{IsDamagedAt};
ghost use Rattle.pq_replay.specs.Replay.{HasSyntaxFault, HasTooManyEvents, IsReplayable};

/// A law: what is an install and, at once after it, a schedule has none of the faults of a replay.
pub fn replayable_bytes_have_no_fault()
    ensures damage { (bytes : List ℕ) (at : ℕ) → IsReplayable bytes → IsDamagedAt bytes at → ⊥ }
    ensures syntax { (bytes : List ℕ) (at : ℕ) → IsReplayable bytes → HasSyntaxFault bytes at → ⊥ }
    ensures full { (bytes : List ℕ) → IsReplayable bytes → HasTooManyEvents bytes → ⊥ }
{}
