//! What is left of an expression after a word, half step by half step.
#![tactic(auto)]

mod atoms;
mod dead;
mod empties;
mod ends;
mod laws;
mod order;
mod parts;
mod sets;
mod starts;
mod state;
mod steps;

pub use laws::{equal_states_of_one_expression_are_one, rests_are_few};
pub use pq_expr::Side;
pub use state::{State, accepts, start, step};
