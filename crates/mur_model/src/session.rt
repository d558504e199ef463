// The session of a connection (RFC 9051, 3).
use crate::view::View;
use imap_types::Reply;
use mur_base::UserName;

/// The state of a session.
#[derive(Drop)]
pub enum Sess {
    /// Not authenticated.
    Off,
    /// Authenticated, with no mailbox selected.
    In(UserName),
    /// Authenticated, with a mailbox selected.
    Selected(View),
    /// Logged out, or its mailbox is gone.
    Ended,
}

/// What a command leaves of its session, and its reply.
#[derive(Drop)]
pub struct Turn {
    /// The session behind the command. None where it is as it was.
    pub session: Option<Sess>,
    pub reply: Reply,
}
