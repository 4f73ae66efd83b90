//! What is written for a network, and how it is spelled. All numbers are spelled big-endian.
#![tactic(auto)]

mod fault;
mod install;
mod laws;
mod lists;
mod names;
mod numbers;
mod read;
mod report;
mod topology;
mod version;
mod write;

pub use fault::InstallFault;
pub use install::{Install, ReportRow};
pub use laws::{
    bytes_are_damaged_in_one_place, bytes_begin_with_one_install, cut_installs_are_damaged,
    damaged_bytes_begin_with_no_install, no_spelling_begins_another,
};
pub use read::whole::read_install;
pub use write::write_install;
