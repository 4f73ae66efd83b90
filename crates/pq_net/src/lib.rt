//! A network of switches: the tables that an install leaves in each, and where packets go and what the collector gets,
//! event by event.
#![tactic(auto)]

mod collecting;
mod entry;
mod flight;
mod hops;
mod laws;
mod lookups;
mod net;
mod opening;
mod sorting;
mod state;
mod wiring;

pub use entry::Entry;
pub use laws::opened_networks_send_by_their_messages;
pub use net::Net;
pub use pq_model::{Event, Tagged};
