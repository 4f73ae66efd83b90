//! Letters: the packets of which the same predicates hold.
#![tactic(auto)]

mod laws;
mod letters;
mod numbering;
mod signature;
mod signing;

pub use laws::least_packets_spell_letters;
pub use letters::Letters;
pub use signing::partition;
