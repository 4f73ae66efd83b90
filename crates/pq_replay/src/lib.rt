//! Replaying: where packets are after a schedule, in the network that an install makes.
#![tactic(auto)]

mod fault;
mod laws;
mod state;
mod text;

pub use fault::ReplayFault;
pub use laws::replayable_bytes_have_no_fault;
pub use text::replay_text;
