// What is asked and answered over MUPDATE (RFC 3656, 3 and 4).
use mur_base::{Bytes, Location, MailName};

/// A command of a client.
#[derive(Drop)]
pub enum MCommand {
    /// The mailbox is to be made at the location (RFC 3656, 4.9).
    Reserve(MailName, Location),
    /// The mailbox is at the location, with this access list (RFC 3656, 4.1).
    Activate(MailName, Location, Bytes),
    /// The mailbox is at the location and can't be used (RFC 3656, 4.3).
    Deactivate(MailName, Location),
    /// The mailbox is no more (RFC 3656, 4.4).
    Delete(MailName),
    /// What is known of a mailbox (RFC 3656, 4.5).
    Find(MailName),
    /// What is known of the mailboxes whose locations begin so (RFC 3656, 4.6).
    List(Option<Bytes>),
    /// All that is known, and each change from then on (RFC 3656, 4.11).
    Update,
    /// Nothing (RFC 3656, 4.8).
    Noop,
    /// The connection is to end (RFC 3656, 4.7).
    Logout,
}

/// A response of a server.
#[derive(Drop)]
pub enum MResponse {
    /// The mailbox is at the location, with this access list (RFC 3656, 3.6).
    Mailbox(MailName, Location, Bytes),
    /// The name is reserved at the location (RFC 3656, 3.5).
    Reserve(MailName, Location),
    /// There is no such mailbox any more (RFC 3656, 3.7).
    Delete(MailName),
    /// The command succeeded (RFC 3656, 3.1).
    Ok(Bytes),
    /// It was refused (RFC 3656, 3.2).
    No(Bytes),
    /// It was no command (RFC 3656, 3.3).
    Bad(Bytes),
}
