//! What a run's steps say of commands, as marks, and the history that marks make. Nothing here knows a node, a link or a world.
//!
//! A home marks that it answered a command, and whether that counts where the client is never told; a frontend marks that it told the client.
//! A mark counts by the next mark of its command (`specs/History.antt`), so the history is read off the marks alone ([`points_of`]).
//!
//! In a run one step acts on each command (`proofs/Told.antt`). Where steps may also only see a command, and what one did is taken back
//! (`specs/Marked.antt`), the same holds of the marks without those of such steps (`proofs/ByLast.antt`), and these make the same history
//! ([`the_last_step_counts`]). Where a command that steps only saw is refused, the mark of the last of them is put back, since what other connections
//! did since stays as it is behind the refusal (`proofs/Refused.antt`). What a step sees of a command of which its client was told before counts for
//! nothing (`proofs/Late.antt`). Which replies can't be taken back any more is said in `proofs/Settled.antt`.
#![tactic(auto)]

mod history;
mod laws;
mod mark;

pub use history::{Points, points_of};
pub use laws::{points_stand_in_time, the_last_step_counts};
pub use mark::{Mark, MarkKind};
