//! The journal of a node: a write-ahead log on a disk.
//!
//! | Offset | Bytes |
//! |---|---|
//! | 0 | the magic `MURDERJ1`, `4d 55 52 44 45 52 4a 31` |
//! | 8 | the first gate |
//! | after an open gate | the length of the entry in four bytes, the highest first; the entry; the next gate |
//! | after a closed gate | the free end, which may hold anything |
//!
//! A gate is one byte, the commit mark of the entry after it: open if it is 01, else closed. The entries are those after open
//! gates, from the front to the first closed gate.
//!
//! | After | Bytes |
//! |---|---|
//! | [`format`] | `4d 55 52 44 45 52 4a 31 00` |
//! | an append of `61 62` | `4d 55 52 44 45 52 4a 31 01 00 00 00 02 61 62 00` |
//!
//! An append makes four device calls: it writes the entry with its length and a closed gate after the last gate, syncs, writes
//! 01 over that gate, and syncs. So a torn write of the entry stands after a closed gate, and a torn write of the gate leaves it
//! open or closed. [`Journal::append_all`] writes several entries so after one gate: a crash leaves all of them or none.
#![tactic(auto)]

mod append;
mod blank;
mod block;
mod commit;
mod fault;
mod journal;
mod open;
mod parse;

pub use blank::format;
pub use fault::{AppendFault, OpenFault};
pub use journal::Journal;
pub use parse::Entries;
