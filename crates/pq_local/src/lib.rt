//! Installs of changed documents, switch by switch: what a change leaves alone is taken over.
#![tactic(auto)]

mod copies;
mod install;
mod places;
mod switches;
mod trees;

pub use install::installed_after;
