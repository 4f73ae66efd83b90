//! The messages that change a switch's flow entries and groups, and how they are spelled and read
//! (OpenFlow 1.3.5, sections 7.1, 7.2.4, 7.2.5, 7.3.4 and 7.3.8). All numbers are spelled big-endian.
#![tactic(auto)]

mod action;
mod action_reading;
mod flow;
mod flow_reading;
mod group;
mod group_reading;
mod message;
mod reading;
mod rules;
mod set_field;

pub use message::write_message;
pub use pq_model::{Action, FlowCommand, FlowMod, GroupCommand, GroupMod, Message};
pub use reading::{MessageFault, no_message_begins_another, read_message};
