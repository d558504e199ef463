//! The bytes that a mail client is given: the greeting, continuations, replies and BYE lines, a file for each kind of line; and
//! as definitions what a client reads of a reply (`specs/ReadAsMeant.antt`). Each call writes behind what is there; want of
//! memory spends the list of bytes.
#![tactic(auto)]

mod access;
mod bye;
mod capability;
mod code;
mod continuation;
mod enabled;
mod exists;
mod expunge;
mod fetch;
mod flags;
mod greeting;
mod list;
mod mailbox;
mod numbered;
mod ok_lines;
mod reply;
mod search;
mod sets;
mod spaced;
mod status;
mod tagged;

pub use bye::put_bye;
pub use continuation::{Continuation, put_continuation};
pub use greeting::put_greeting;
pub use reply::write;
