// Changes of a mailbox.
use crate::flag_set::FlagSet;
use crate::message::Message;
use mur_base::Items;

/// A change of a mailbox's content.
#[derive(Drop)]
pub enum Change {
    /// The message is there, in the place of one with its UID.
    Put(Message),
    /// The message with this UID has these flags, if it is there.
    SetFlags(u32, FlagSet),
    /// No message with this UID is there.
    Gone(u32),
    /// The next message gets this UID (RFC 9051, 2.3.1.1).
    NextUid(u32),
}

/// Changes in their order.
pub type Changes = Items<Change>;
