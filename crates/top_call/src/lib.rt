//! The top call: what the words of a call ask for, done over any host of files and outputs. A schedule of a file is run, and what clients
//! were given and the history are written; or one that a number makes, and a line of counts is written. How it ended is told by a status and a line.
#![tactic(auto)]

mod call;
mod drill;
mod file;
mod output;
mod replay;
mod status;

pub use call::{murder, tell};
pub use status::Status;
