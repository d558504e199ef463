//! One command of a connection that waits: whom it asks, what goes out for it, and what comes of each answer.
//!
//! | What comes | What becomes of it | Definition |
//! |---|---|---|
//! | the command, which needs the home of a mailbox | the server of its name's record is asked, or the master first | [`Waiting::begin`], `specs/Begins.antt` |
//! | an answer of the server that was asked | a reply; or the command is asked elsewhere, or the master first | [`Waiting::answered`], `specs/Answered.antt` |
//! | the master's OK | the mailbox is missing, its server is asked, or the command is refused | [`Waiting::cleared`], `specs/Cleared.antt` |
//!
//! Whom a command asks is decided in `ask_routes`, what an operation's result is for its session in `session_core`. What is asked is kept as long as
//! the command waits, since it may be asked anew, and copied into each ask. No connection is here, and no number is counted.
#![tactic(auto)]

mod answered;
mod asks;
mod cleared;
mod laws;
mod op;
mod routes;
mod then;
mod waiting;

pub use laws::{
    a_command_asks_the_same, a_refusal_has_its_cause, the_master_is_asked_once_at_a_time,
};
pub use routes::Routes;
pub use then::Then;
pub use waiting::{At, Sent, Waiting};
