//! Packets as fourteen numbers: the fields of a packet, their widths, and which fields a packet has.
#![tactic(auto)]

mod field;
mod label;
mod names;
mod order;
mod packet;
mod pred;
mod presence;
mod protocols;
mod truth;
mod widths;
mod writes;

pub use field::Field;
pub use label::Label;
pub use names::{field_name, field_named};
pub use order::packets_are_ordered_by_numbers;
pub use packet::{Packet, fits};
pub use pred::Pred;
pub use presence::has;
pub use protocols::{IPV4, IPV6, TCP, UDP};
pub use truth::holds;
pub use widths::width;
pub use writes::{Writes, writes_are_ordered_by_numbers};
