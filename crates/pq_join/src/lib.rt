//! The decision diagrams of a switch's two tables: what is made of arrivals, and which copies leave.
#![tactic(auto)]

mod arriving;
mod choices;
mod departure;
mod departures;
mod laws;
mod leaving;
mod maps;
mod overwriting;
mod ports;
mod sight;
mod tags;
mod trees;

pub use laws::{tests_stand_below_prerequisites, trees_are_sound, trees_test_ports};
pub use trees::switch_trees;
