// What a failing call answers, and how it is counted.
ghost use Rattle.std.specs.Prelude.{◌≡◌};
ghost use Rattle.pq_io.specs.Faults.{next_count};

/// Why a read or a write was refused: the source or the sink had a fault. It raised its count of
/// faults, or left it at the largest `u64`.
#[derive(Clone, Copy, Debug, PartialEq, Eq)]
pub struct Failed;

// One more of something, short of the largest `u64`.
pub(crate) fn one_more(count: u64) -> u64
    ensures { result ≡ next_count count }
{
    count.saturating_add(1)
}
