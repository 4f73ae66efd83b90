//! Where a program's bytes come from and where they go.
//!
//! A `Source` gives bytes and a `Sink` takes them. Either may fail at any call, and then raises its
//! count of faults. `MemorySource` and `MemorySink` tell contracts their bytes, and fail at the
//! calls that their maker chose. `StreamSource` and `StreamSink` are over a reader and a writer of
//! std.
//!
//! `Steps` counts steps of work, for contracts alone.
#![tactic(auto)]

mod faults;
mod memory_sink;
mod memory_source;
mod sink;
mod source;
mod steps;
mod stream_sink;
mod stream_source;

pub use faults::Failed;
pub use memory_sink::MemorySink;
pub use memory_source::MemorySource;
pub use sink::Sink;
pub use source::Source;
pub use steps::Steps;
pub use stream_sink::StreamSink;
pub use stream_source::StreamSource;
