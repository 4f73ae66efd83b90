//! The text of a schedule and the text of a network's state.
#![tactic(auto)]

mod event_line;
mod injection;
mod key;
mod numbers;
mod packet_text;
mod schedule;
mod state;
mod values;

pub use event_line::event_of_line;
pub use schedule::{ScheduleFault, a_text_is_read_one_way, read_schedule};
pub use state::{write_bucket, write_delivered, write_flight};
