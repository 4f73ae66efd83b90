//! The tokens of a text of path queries: words, numbers, addresses and symbols, between white space and
//! comments.
#![tactic(auto)]

mod addresses;
mod bytes;
mod cut;
mod division;
mod forms;
mod groups;
mod name;
mod names;
mod numbers;
mod scan;
mod token;

pub use addresses::{ipv4_value, ipv6_value, mac_value};
pub use cut::cut_at;
pub use division::{TermFault, has_one_division, token_list};
pub use name::Name;
pub use names::{is_name, is_reserved};
pub use numbers::{decimal_value, number_value};
pub use scan::token_at;
pub use token::{Kind, Next, Token};
