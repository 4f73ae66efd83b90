//! Reading an install: each part where it is at the front of bytes.

pub mod front;
pub mod links;
pub mod lists;
pub mod names;
pub mod report;
pub mod reporting;
pub mod switches;
pub mod topology;
pub mod whole;
