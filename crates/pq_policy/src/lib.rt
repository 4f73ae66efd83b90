//! Forwarding policies, and what a policy gives on one packet.
#![tactic(auto)]

mod apply;
mod laws;
mod policy;
mod resolve;
mod sets;
mod writes;

pub use apply::apply_plain;
pub use laws::policies_yield_one_list;
pub use policy::Policy;
pub use resolve::resolve_policy;
