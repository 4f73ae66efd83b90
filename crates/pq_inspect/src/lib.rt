//! An install as JSON text.
#![tactic(auto)]

mod hex;
mod inspection;
mod laws;
mod message;
mod numbers;
mod report;
mod shown;
mod switch;
mod text;
mod whole;
mod written;

pub use inspection::inspect;
pub use laws::whole_installs_have_no_fault;
pub use whole::inspect_bytes;
