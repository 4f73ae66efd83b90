//! Installs of documents.
use pq_command::{Outcome, run};
use pq_io::{MemorySink, MemorySource};
use std::alloc::{AllocError, Global};
use std::fmt;

/// The most bytes of an install.
const ROOM: usize = 0x0080_0000;

/// What two documents have in common.
#[derive(Drop)]
pub struct Comparison {
    /// The outcome of the first.
    pub outcome: String,
    /// The bytes of its install.
    pub bytes: usize,
    /// Whether the second has the same outcome and the same install.
    pub is_same: bool,
}

impl fmt::Display for Comparison {
    fn fmt<W: fmt::Write>(&self, f: &mut fmt::Formatter<W>) -> fmt::Result {
        if self.outcome.is_empty() {
            write!(f, "{} bytes", self.bytes)?;
        } else {
            write!(f, "{}", self.outcome)?;
        }
        if self.is_same {
            write!(f, ", and the same")
        } else {
            write!(f, ", but not the same")
        }
    }
}

/// The outcome of compiling a document, and what was written.
fn compiled(alloc: Global, document: &str) -> Result<(Outcome, Vec<u8>), AllocError> {
    let mut words = Vec::new(alloc);
    words.push(String::from_str(alloc, "compile")?)?;
    let bytes = Vec::from_slice(alloc, document.as_bytes())?;
    let mut source = MemorySource::new(bytes, Vec::new(alloc));
    let mut sink = MemorySink::new(alloc, Vec::new(alloc), 0, ROOM)?;
    let outcome = run(alloc, &words, &mut source, &mut sink);
    Ok((outcome, Vec::from_slice(alloc, sink.put())?))
}

/// Compiles both documents.
pub(crate) fn compare(
    alloc: Global,
    document: &str,
    other: &str,
) -> Result<Comparison, AllocError> {
    let (outcome, install) = compiled(alloc, document)?;
    let (other_outcome, other_install) = compiled(alloc, other)?;
    Ok(Comparison {
        outcome: outcome.line(alloc)?,
        bytes: install.len(),
        is_same: outcome == other_outcome && install == other_install,
    })
}
