// The points of a history: which step told what of which command.
use crate::name_rules::NodeName;

/// A command of a client: the number of its connection, and its own number in it, from 1.
#[derive(Clone, Copy, Debug, PartialEq, Eq)]
pub struct AskId {
    pub conn: u64,
    pub command: u64,
}

/// What a point says of its command.
#[derive(Drop)]
pub enum What {
    /// The command was answered.
    Reply,
    /// The messages that a COPY appends later were read.
    Read,
    /// The command was carried out, and its client was never answered.
    Lost,
    /// The command was refused, since its mailbox was being moved.
    Reserved,
    /// The command was refused, since this node wasn't reached.
    Unreached(NodeName),
}

/// One point of the history. Steps count from 1.
#[derive(Drop)]
pub struct Point {
    pub step: u64,
    pub ask: AskId,
    pub what: What,
}
