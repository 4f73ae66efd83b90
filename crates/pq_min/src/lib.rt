//! The least automaton: its classes of words, numbered by least word.
#![tactic(auto)]

mod classes;
mod minimisation;

pub use classes::Classes;
pub use minimisation::minimise;
