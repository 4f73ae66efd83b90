//! The match of a flow entry and how it is spelled and read (OpenFlow 1.3.5, section 7.2.3), with the
//! pieces that the spellings of whole messages share. All numbers are spelled big-endian.
#![tactic(auto)]

mod bytes;
mod fields;
mod matching;
mod next;
mod oxm;
pub mod oxm_field;
mod reading;
mod rules;
mod stated;

pub use bytes::{mac_of, padding, u16_of, u32_of, u64_of, write_length, write_zeros};
pub use matching::{keeps_rules, write_match};
pub use oxm::write_oxm;
pub use pq_model::Match;
pub use reading::{MatchFault, no_match_begins_another, read_match};
