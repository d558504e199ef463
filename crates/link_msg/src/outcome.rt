// What was done.
use mail_message::{Messages, OrderedRows, Summaries, Uids};

/// What came of an operation that its home carried out or refused for good.
#[derive(Drop)]
pub enum Outcome {
    /// It is done, and there is nothing to tell.
    None,
    /// The messages that were read, in the order in which they were asked for, with the flags that they had before.
    Messages(Messages),
    /// The messages that were asked for without their bodies, in the order in which they were asked for.
    Summaries(Summaries),
    /// The messages whose flags were set, with the flags that they have now, in rising order of UID.
    Rows(OrderedRows),
    /// The UIDs of the messages that were appended, in their order, or that were expunged, in rising order.
    Uids(Uids),
    /// There is a mailbox with that name already.
    Exists,
    /// It would pass a limit.
    Limit,
    /// The mailbox that the asking session has selected is gone: another one has its name.
    Gone,
}
