// Moments of a mailbox.

/// A moment of a mailbox that its log remembers: the number of the mark, which no other mark of the log has.
#[derive(Clone, Copy, Debug, PartialEq, Eq)]
pub struct Mark(pub u64);
