//! The flow entries, groups and messages that the trees of a switch's two tables stand for.
#![tactic(auto)]

mod actions;
mod counting;
mod entries;
mod fault;
mod grouping;
mod matching;
mod renewal;
mod roots;
mod tables;

pub use actions::copy_actions;
pub use entries::entry_matches;
pub use fault::RulesFault;
pub use tables::rules;
