//! Operations on decision diagrams: products, choices, restrictions, and the diagrams of predicates.
#![tactic(auto)]

mod atoms;
mod bits;
mod choice;
mod combination;
mod junction;
mod memo;
mod predicates;
mod prerequisites;
mod products;
mod restriction;
mod splitting;

pub use choice::ite;
pub use combination::combine;
pub use memo::{recall, remember};
pub use predicates::pred_node;
pub use products::product;
pub use restriction::{decided, restrict};
