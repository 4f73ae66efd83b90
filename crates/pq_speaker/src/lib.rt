//! One end of an OpenFlow 1.3 control connection that installs messages in one switch: it greets, asks
//! which switch is there, installs, waits for the last barrier, and answers echoes.
#![tactic(auto)]

mod division;
mod header;
mod hearing;
mod laws;
mod own_barrier;
mod rules;
mod session;
mod speaker;
mod talk;

pub use laws::{installed_means_processed, pieces_are_heard_as_one, renewals_are_installed};
pub use own_barrier::ends_with_own_barrier;
pub use pq_model::Message;
pub use speaker::Speaker;
pub use talk::{Reason, Talk};
