// What changed from one mark to the next.
use crate::notes::Notes;

/// The notes from a mark to the next one.
#[derive(Drop)]
pub struct Span {
    /// The number of the mark.
    pub mark: u64,
    /// The rows at the mark of the messages that changed since.
    pub before: Notes,
}
