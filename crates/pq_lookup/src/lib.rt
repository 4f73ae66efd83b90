//! Laws of a switch's tables: tables that are filled from trees send what the trees' leaves say.
#![tactic(auto)]

mod entries;
mod sending;

pub use entries::entries_answer;
pub use sending::{renewing, switch_sends, tables_send};
