//! The commands of pathq, over any source and sink.
#![tactic(auto)]

mod answer;
mod compile;
mod inspect;
mod outcome;
mod reading;
mod replay;
mod session;
mod speak;
mod summary;
mod top;
mod words;

pub use outcome::Outcome;
pub use reading::{Unread, read_whole};
pub use top::run;
pub use words::Command;
