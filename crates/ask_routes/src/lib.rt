//! Whom a frontend asks for a command, and when it asks the master first.
//!
//! | What | Definition |
//! |---|---|
//! | what is done first for a command, behind an answer of a home, behind the master's OK | `specs/Ways.antt` |
//! | what holds of these whatever records there are | `specs/WayLaws.antt` |
//! | the NOOP of a command, and its OK | `specs/Barrier.antt` |
//!
//! A frontend's replica of the master's table may be behind the table (`feed_core`). So nothing is told of a mailbox, as that it is missing, by the
//! replica alone: the frontend sends the master a NOOP under the command's tag ([`noop_line`]), whose OK comes behind all that the master told before
//! (RFC 3656, 4.11), and decides by the replica of then ([`behind_ok`]). This is a barrier. A server that a record names is asked at once
//! ([`first_step`]): it answers `NotNow` if the mailbox isn't open there, and then there is a barrier too ([`behind_answer`]).
#![tactic(auto)]

mod ask_for;
mod barrier;
mod laws;
mod next;
mod ways;

pub use ask_for::AskFor;
pub use barrier::{barrier_answered, noop_line};
pub use laws::{an_ok_tells_its_command, nothing_is_told_before_the_ok};
pub use next::{Next, Why};
pub use ways::{behind_answer, behind_ok, first_step};
