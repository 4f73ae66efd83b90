//! The messages that turn the tables of switches into others (OpenFlow 1.3.5, sections 6.1.3, 7.3.4.1 and 7.3.4.2).
#![tactic(auto)]

mod added;
mod equal;
mod group_changes;
mod install;
mod key;
mod laws;
mod sending;
mod switch;
mod unchanged;

pub use install::delta;
pub use laws::{deltas_are_lawful, deltas_turn_tables};
