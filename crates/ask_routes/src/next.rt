// What comes next for a command.
use mur_base::NodeName;

/// Why the master is asked before a command is decided.
#[derive(Clone, Copy, Debug, PartialEq, Eq)]
pub enum Why {
    /// The replica has no record of the name.
    Missing,
    /// The home answered that the mailbox can't be served there at present.
    NotNow,
}

/// What comes next for a command.
#[derive(Drop)]
pub enum Next {
    /// This server is asked.
    Ask(NodeName),
    /// The master is sent a NOOP, and the command is decided behind its OK.
    Barrier(Why),
    /// There is no mailbox of the name.
    Missing,
    /// The command is refused, since the mailbox is being moved (RFC 9051, 7.1: UNAVAILABLE).
    Refused,
}
