//! What the nodes of a cluster say to each other: a frontend asks the home of a mailbox, and the home answers. Nothing
//! here knows how an answer is found.
#![tactic(auto)]

mod answer;
mod ask;
mod counts;
mod how;
mod message;
mod out;
mod outcome;

pub use answer::{AnswerBody, BackAnswer};
pub use ask::FrontAsk;
pub use counts::Counts;
pub use how::How;
pub use imap_types::Op;
pub use message::LinkMsg;
pub use out::{Out, Outs};
pub use outcome::Outcome;
