//! Decision diagrams whose leaves are sets of writes, and the leaves of the trees that tables are made of.
#![tactic(auto)]

mod canonical;
mod keeping;
mod outgoing;
mod presence;
mod sequence;
mod settled;
mod trees;
mod unions;
mod write_set;
mod written;

pub use canonical::equal_rewritings_are_one;
pub use keeping::keep;
pub use outgoing::{Copies, OutKind, Outgoing};
pub use sequence::then;
pub use settled::write;
pub use trees::{Arrive, Key, SwitchTrees};
pub use unions::union;
pub use write_set::WriteSet;
pub use written::after;
