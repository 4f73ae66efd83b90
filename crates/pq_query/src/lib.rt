//! What a query asks for.
#![tactic(auto)]

mod atoms;
mod counts;
mod group;
mod groups;
mod listing;
mod query;
mod resolve;
mod sizes;
mod values;

pub use counts::label_count;
pub use group::Group;
pub use listing::{InstancesFault, instances};
pub use pq_model::Instance;
pub use query::Query;
pub use resolve::resolve_query;
