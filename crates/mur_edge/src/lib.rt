//! The edge of the program: where bytes come from and go to, and who hands out such objects.
//!
//! A [`Source`] is read, a [`Sink`] is written, and a [`Host`] hands both out and takes them back. Each object and each
//! host counts its faults, and no call answers `Failed` but where a count rose; one that answers `Memory` counts none.
//! `read_front` and `write_all` are the two loops over them; `MemSource`, `MemSink` and `MemHost` are the same in memory,
//! and which of their calls fail is given by number.
#![tactic(auto)]

mod asks;
mod fault;
mod host;
mod memory;
mod returned;
mod sink;
mod source;

pub use asks::Asks;
pub use fault::{Failed, Faults, HostFault};
pub use host::{Asked, Host, Used};
pub use memory::{
    Calls, Lent, MemHost, MemSink, MemSource, MemSources, MemUsed, SinkState, SourceState,
    mem_host, mem_sink, mem_source,
};
pub use returned::{Returned, Room};
pub use sink::{Sink, write_all};
pub use source::{Source, read_front};
