//! The automaton of several expressions over the letters of an alphabet.
#![tactic(auto)]

mod automaton;
mod exploration;
mod leading;
mod lists;
mod met;
mod partition;
mod product;
mod quotient;
mod refinement;
mod single;
mod table;

pub use automaton::Automaton;
pub use exploration::explore;
pub use quotient::least;
pub use table::Table;
