//! Documents that are edited, with their installs.
#![tactic(auto)]

mod diagrams;
mod engine;
mod kept;
mod named;
mod opening;
mod parts;
mod queries;
mod renewal;

pub use engine::Engine;
