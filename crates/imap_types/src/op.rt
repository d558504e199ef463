// What is asked of a mailbox.
use mail_message::{FlagSet, Messages, Mode, Uids};
use mur_base::{Bytes, NodeName};

/// What a frontend asks of a mailbox.
#[derive(Drop)]
pub enum Op {
    /// What it looks like.
    Look,
    /// The messages with these UIDs; where the flag is true they get `\Seen`, as a FETCH of `BODY[]` gives it to them
    /// (RFC 9051, 6.4.5).
    Read(Uids, bool),
    /// The messages with these UIDs, but not their bodies.
    Summaries(Uids),
    /// Other flags for the messages with these UIDs (RFC 9051, 6.4.6).
    Flags(Uids, Mode, FlagSet),
    /// The messages with `\Deleted` taken away: of these UIDs, or all (RFC 9051, 6.4.3 and 6.4.9).
    Expunge(Option<Uids>),
    /// These messages put behind the others; the UIDs that they have are not looked at (RFC 9051, 6.3.12).
    Append(Messages),
    /// The mailbox made (RFC 9051, 6.3.4).
    Create,
    /// The mailbox deleted (RFC 9051, 6.3.5).
    Delete,
    /// The mailbox moved to this server, into the partition behind it.
    Xfer(NodeName, Bytes),
}
