//! What a mail client asks, what its command asks of a mailbox, and what the client is answered, as plain types (RFC 9051, 6 and 7).
//! Nothing here knows of bytes or of the store.
#![tactic(auto)]

mod command;
mod op;
mod reply;
mod request;

pub use command::{Atoms, Command, StatusItem, StatusItems, Tag};
pub use op::Op;
pub use reply::{
    Attribute, BadText, Bye, Code, FlagNames, NoText, Parts, Reply, ReplyLine, ReplyLines,
    StatusCount, StatusCounts, Verdict, completed, refused,
};
pub use request::{Answer, Request};
