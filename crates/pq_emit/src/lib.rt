//! The install of a network, from the diagram of its policy and the classes of its queries.
#![tactic(auto)]

mod assembly;
mod emission;
mod laws;
mod messages;
mod names;
mod report;
mod trees;

pub use assembly::assembled;
pub use emission::emit;
pub use laws::one_trees;
pub use trees::all_trees;
