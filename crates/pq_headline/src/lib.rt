//! The headline of a switch's tables: switches that send as the tables layout says move and capture packets as a
//! document's meaning says.
#![tactic(auto)]

mod departing;
mod implementing;
mod simulating;

pub use departing::{Yielded, departing_writes_depart};
pub use implementing::tables_implement;
pub use simulating::{Held, laid_out_tables_agree, laid_out_tables_simulate};
