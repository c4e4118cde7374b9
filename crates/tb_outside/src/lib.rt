//! Where bytes come from and where they go.
//!
//! A [`Source`] gives bytes and a [`Sink`] takes them. Either may fail, and counts each failure, so that an
//! answer that names a fault has a cause that can be seen from outside. [`read_all`] reads a source to its end,
//! [`put_all`] appends a piece whole, and an [`OutputBuffer`] gathers small pieces beside a sink, remembers a fault and
//! tells it at its flush. A [`Text`] is written through such a buffer by [`write_text`].
#![tactic(auto)]

mod buffer;
mod memory;
mod sink;
mod source;
mod stream;
#[cfg(test)]
mod tests;
mod text;

pub use buffer::{BUFFER_SIZE, OutputBuffer};
pub use memory::{MemorySink, MemorySource, SteadySource};
pub use sink::{Sink, SinkFault, put_all};
pub use source::{InFault, Source, read_all};
pub use stream::{StdSink, StdSource};
pub use text::{Text, write_text};
use thiserror::Error;

/// One call of a source or a sink failed.
#[derive(Clone, Copy, Debug, PartialEq, Eq, Error)]
#[error("the source or the sink failed")]
pub struct Failed;

/// Memory ran out.
#[derive(Clone, Copy, Debug, PartialEq, Eq, Error)]
#[error("memory ran out")]
pub struct NoMemory;
