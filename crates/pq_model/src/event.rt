use crate::tagged::Tagged;

/// An atomic step of a network.
#[derive(Clone, Copy, Debug, PartialEq, Eq)]
pub enum Event {
    /// A packet enters at an edge port.
    Inject(Tagged),
    /// The packet in flight at this place, counted from 0, passes through its switch.
    Hop(u64),
    /// The packet in flight at this place is lost.
    Lose(u64),
}
