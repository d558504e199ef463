//! A frontend that decides whom it asks by its replica of the master's table: its connections, what inputs, answers and the master's OK make of them, and
//! what it lets out. It knows no other node's state.
//!
//! | What comes | What becomes of it | Definition |
//! |---|---|---|
//! | a client | it is given the greeting | [`Front::connect`], `specs/Front.antt` |
//! | bytes of a client | each command is answered, or begins to wait: for the server of its mailbox, or for the master | [`Front::bytes_in`], `specs/Taken.antt` |
//! | an answer of the server that was asked | a reply, and the inputs that waited; or the command is asked elsewhere, or the master first | [`Front::deliver`], `specs/Answered.antt` |
//! | the master's OK to a command's NOOP | the same, by the replica of then | [`Front::deliver`], `specs/Answered.antt` |
//! | another line of the master | the replica changes (RFC 3656, 4.11) | [`Front::deliver`], `specs/Front.antt` |
//! | the link to the master comes up | the replica is empty, and the master is asked for its table | [`Front::deliver`], `specs/Front.antt` |
//! | the link to a node ends | what asked it is lost with its connection; what waits for the OK of the master is refused | [`Front::deliver`], `specs/Answered.antt`, `specs/AskOrder.antt` |
//! | a client closes its connection | what the connection held is let go | [`Front::hang`], `specs/Ended.antt` |
//!
//! Whom a command asks, and what comes of each answer, is decided in `asking_core`. Nothing is sent where a link isn't up: the command is refused. What any
//! other node says changes nothing.
#![tactic(auto)]

mod answered;
mod ask_order;
mod asks;
mod connection;
mod desk;
mod front;
mod links;
mod listing;
mod parked;
mod piece;
mod reader;
mod replies;
mod slot;
mod taken;
mod ups;
mod waiting;

pub use connection::{Connection, Stage};
pub use front::Front;
pub use parked::Parked;
pub use reader::Reader;
pub use slot::Slot;
pub use ups::Ups;
