//! Queries as expressions over half steps.
#![tactic(auto)]

mod atoms;
mod expression;
mod laws;
mod lowering;
mod operators;
mod predicates;
mod twins;

pub use expression::lower;
pub use laws::more_predicates_tell_the_same;
