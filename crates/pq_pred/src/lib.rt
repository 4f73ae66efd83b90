//! The predicates of a text: fields, values and tests by their names.
#![tactic(auto)]

mod predicates;
mod tests_of_fields;
mod values;

pub use predicates::resolve_pred;
pub use values::{faulty, field_at, port_value, value_of};
