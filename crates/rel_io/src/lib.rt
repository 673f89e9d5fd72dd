//! Files and a sink for text, in memory or real, with counts of faults that no answer hides.
#![tactic(auto)]

pub mod calls;
pub mod files;
pub mod host;
pub mod memory_files;
pub mod memory_sink;
pub mod sink;
pub(crate) mod streams;

pub use files::{FileFault, Files};
pub use host::{HostFiles, HostSink};
pub use memory_files::MemFiles;
pub use memory_sink::MemSink;
pub use sink::{Sink, SinkFault};
