//! The numbers that a document states for fields, and whether they are too many.
#![tactic(auto)]

mod counts;
mod laws;
mod numbers;
mod policies;
mod predicates;
mod queries;

pub use counts::values_full;
pub use laws::{
    no_field_is_full, policies_have_ports, queries_have_ports, room_serves_all,
    stated_values_have_room,
};
