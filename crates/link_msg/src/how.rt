// How a client is told of its command.
use mur_base::NodeName;

/// How the client of a command is told of it, and so which step is the command's point in the history.
#[derive(Drop)]
pub enum How {
    /// The frontend answers by itself: this step is the point.
    Here,
    /// The frontend hands on the answer of a home: the home's step is the point.
    Behind,
    /// The frontend refuses it, since its mailbox is reserved at the master (RFC 3656, 4.9): the step in which the master answered its NOOP is the point.
    Reserved,
    /// The frontend refuses it, since this node, which it needs, isn't reached: this step is the point.
    Unreached(NodeName),
}
