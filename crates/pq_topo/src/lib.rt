//! The network that a document describes: its switches, their ports and the links between them.
#![tactic(auto)]

mod fault;
mod link;
pub mod names;
mod resolve;
mod switch;
mod topology;

pub use fault::{NameFault, NameKind};
pub use link::Link;
pub use switch::Switch;
pub use topology::Topology;
