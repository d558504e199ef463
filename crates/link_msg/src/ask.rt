// What a frontend asks.
use imap_types::Op;
use mur_base::{AskId, MailName, UserName};

/// What a frontend asks of a mailbox's home.
#[derive(Drop)]
pub struct FrontAsk {
    /// The command for which it asks.
    pub id: AskId,
    /// The user whose command that is.
    pub user: UserName,
    /// The mailbox.
    pub name: MailName,
    /// The UIDVALIDITY of the mailbox that the session has selected; None where none is (RFC 9051, 2.3.1.1).
    pub selected: Option<u32>,
    pub op: Op,
}
