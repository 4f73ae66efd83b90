//! Decision diagrams over packets that share their nodes.
#![tactic(auto)]

mod cell;
mod compaction;
mod laws;
mod leaf;
mod least;
mod node_id;
mod store;
mod test;
mod view;

pub use laws::{ignored_fields_are_untested, one_diagram, prerequisites_stand_first};
pub use leaf::Leaf;
pub use least::Least;
pub use node_id::NodeId;
pub use store::Store;
pub use test::Test;
pub use view::View;
