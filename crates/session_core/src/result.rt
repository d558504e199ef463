// What came of an operation.
use link_msg::Outcome;
use mail_message::Snapshot;

/// What came of the operation that a mailbox was asked for.
#[derive(Drop)]
pub enum OpResult {
    /// This came of it, and then the mailbox looked like that.
    Done(Outcome, Snapshot),
    /// There is no such mailbox.
    Missing,
}
