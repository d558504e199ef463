//! What changed in a mailbox since a moment, which a home tells in place of all rows: the log from which it knows that, and a mailbox
//! as a frontend has it.
#![tactic(auto)]

mod changes;
mod delta;
mod laws;
mod log;
mod mark;
mod mirror;
mod notes;
mod span;

pub use changes::{all_changes, changes_since};
pub use delta::Delta;
pub use laws::{
    a_forgotten_mark_takes_no_other_with_it, a_mark_has_the_rows_of_its_moment,
    a_note_changes_no_mark, changes_of_noted_messages_change_no_mark,
};
pub use log::ChangeLog;
pub use mark::Mark;
pub use mirror::Mirror;
