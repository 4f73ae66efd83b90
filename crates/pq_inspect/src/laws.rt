ghost use Rattle.std.specs.Prelude.{ℕ, List};
ghost use Rattle.pq_inspect.specs.Inspected.{IsSpoiledAt, IsWholeInstall};

/// A law: an install and nothing else has no fault of an inspection.
pub fn whole_installs_have_no_fault()
    ensures { (bytes : List ℕ) (at : ℕ) → IsWholeInstall bytes → IsSpoiledAt bytes at → ⊥ }
{}
