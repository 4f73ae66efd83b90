//! The switch machine: what OpenFlow messages do to the tables of a switch, and what the switch sends for a packet
//! (OpenFlow 1.3.5, sections 5 and 7.3.4).
#![tactic(auto)]

mod actions;
mod entries;
mod entry;
mod flow_tables;
mod groups;
mod listing;
mod lookup;
mod naming;
mod pattern;
mod place;
mod sending;
mod settled;
mod shelves;
mod sorting;
mod tables;

pub use pq_model::{Sent, Tagged};
pub use sending::hop;
pub use settled::Settled;
pub use tables::Tables;
