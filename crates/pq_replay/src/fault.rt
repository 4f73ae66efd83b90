/// Why there is nothing to replay. Places are counted from the first byte of the input.
#[derive(Clone, Copy, Debug, PartialEq, Eq)]
pub enum ReplayFault {
    /// The input begins with no install; the first unit that is missing, cut or unlawful begins here.
    Damaged { at: usize },
    /// The first line that is not an event begins here.
    Syntax { at: usize },
    /// The schedule has more than 100,000 events.
    Full,
    /// Memory ran out.
    Memory,
}
