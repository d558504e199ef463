// What changed in a mailbox.
use mail_message::{OrderedRows, Uids};

/// What changed in a mailbox since a moment.
#[derive(Drop)]
pub struct Delta {
    /// UIDVALIDITY (RFC 9051, 2.3.1.1).
    pub serial: u32,
    /// UIDNEXT (RFC 9051, 2.3.1.1).
    pub next: u32,
    /// Bytes of all bodies together, at most the greatest `u64`.
    pub size: u64,
    /// The messages that are new or have other flags.
    pub changed: OrderedRows,
    /// The UIDs of the messages that are there no more, in rising order.
    pub gone: Uids,
}
