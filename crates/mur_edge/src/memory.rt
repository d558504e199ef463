// Sources, sinks and a host in memory. The calls that fail are given by their numbers.
mod host;
mod sink;
mod source;

pub use host::{Lent, MemHost, MemSources, MemUsed, mem_host};
pub use sink::{MemSink, SinkState, mem_sink};
pub use source::{Calls, MemSource, SourceState, mem_source};
