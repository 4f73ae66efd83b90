//! What everything above speaks of: OpenFlow messages and how they are spelled, how a switch and a network of
//! switches act on them, and what a document means. The definitions are in `specs/`; the laws over them are
//! the contracts of the functions here.
#![tactic(auto)]

mod action;
mod blocks;
mod commuting;
mod copying;
mod covering;
mod event;
mod flow_mod;
mod group_mod;
mod instance;
mod matching;
mod message;
mod orders;
mod renewal;
mod reserved;
mod simulation;
mod tagged;

pub use action::Action;
pub use blocks::{
    adds_are_free_of_order, adds_leave_their_entries, blocks_between_barriers_are_free_of_order,
    deletes_are_free_of_order, group_mods_are_free_of_order,
};
pub use commuting::{commuting_is_symmetric, flow_mods_commute, group_mods_commute};
pub use event::Event;
pub use flow_mod::{FlowCommand, FlowMod};
pub use group_mod::{GroupCommand, GroupMod};
pub use instance::Instance;
pub use matching::Match;
pub use message::Message;
pub use orders::{
    lawful_orders_leave_the_same_tables, messages_keep_tables_the_same, same_tables_send_the_same,
};
pub use renewal::renewals_leave_what_they_add;
pub use reserved::{ALL_GROUPS, CONTROLLER, IN_PORT, LAST_PORT};
pub use simulation::{Correspondence, agreeing_hops_make_schedules_agree};
pub use tagged::{Sent, Tagged};
