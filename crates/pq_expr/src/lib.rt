//! Regular expressions over the half steps of packets.
#![tactic(auto)]

mod expr;
mod laws;
mod numbers;
mod side;
mod twins;

pub use expr::Expr;
pub use laws::{repetition_is_any_number_of_pieces, truths_below_the_bound_decide};
pub use side::Side;
