// What a step says of a command.
use link_msg::{Counts, How};
use mur_base::AskId;

/// What a step says of a command.
#[derive(Drop)]
pub struct Mark {
    /// The number of the step, from 1.
    pub step: u64,
    pub ask: AskId,
    pub kind: MarkKind,
}

/// What a mark says of its command. It counts by the next mark of the same command.
#[derive(Drop)]
pub enum MarkKind {
    /// A home answered the command.
    Home(Counts),
    /// The client was told of the command.
    Told(How),
}
