// What a command of a selected session does at its mailbox (RFC 9051, 6.4).
use crate::commands::fetch::Fetching;
use crate::commands::search::Searching;
use crate::commands::store::FlagStore;
use mail_message::Uids;

/// What tells only the news of a mailbox.
#[derive(Clone, Copy, Debug, PartialEq, Eq)]
pub enum NewsFor {
    Noop,
    /// IDLE, whose line has come.
    Idle,
}

/// What is to be done at the mailbox of a view.
#[derive(Drop)]
pub enum ViewWork {
    /// It is looked at, and its news are told.
    News(NewsFor),
    /// CLOSE: the messages with `\Deleted` are taken away, and it is selected no more.
    Close,
    /// EXPUNGE, of all messages or of those with some UIDs.
    Expunge(Option<Uids>),
    Store(FlagStore),
    Fetch(Fetching),
    Search(Searching),
}
