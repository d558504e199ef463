// The commands of a mail client (RFC 9051, 6).
use mail_message::{DateText, FetchItems, FlagSet, Keys, Mode, SetParts};
use mur_base::{Bytes, Items};

/// What a reply begins with: the command's tag, or `*` where none reads.
#[derive(Drop)]
pub enum Tag {
    Star,
    Text(Bytes),
}

/// What STATUS is asked for (RFC 9051, 6.3.11).
#[derive(Clone, Copy, Debug, PartialEq, Eq)]
pub enum StatusItem {
    /// The number of messages.
    Messages,
    /// The UID that the next message gets.
    UidNext,
    /// The UIDVALIDITY.
    UidValidity,
    /// The number of messages without `\Seen`.
    Unseen,
    /// The number of messages with `\Deleted`.
    Deleted,
    /// The bytes of all messages.
    Size,
}

/// What one STATUS asks for, in its order.
pub type StatusItems = Items<StatusItem>;

/// Names of capabilities (RFC 9051, 6.3.1).
pub type Atoms = Items<Bytes>;

/// A command as its client spelled it, without its tag.
#[derive(Drop)]
pub enum Command {
    /// CAPABILITY (RFC 9051, 6.1.1).
    Capability,
    /// NOOP (RFC 9051, 6.1.2).
    Noop,
    /// LOGOUT (RFC 9051, 6.1.3).
    Logout,
    /// LOGIN of a user with a password (RFC 9051, 6.2.3).
    Login(Bytes, Bytes),
    /// AUTHENTICATE PLAIN, and the response where it is there (RFC 9051, 6.2.2).
    Authenticate(Option<Bytes>),
    /// ENABLE of capabilities (RFC 9051, 6.3.1).
    Enable(Atoms),
    /// SELECT of a mailbox (RFC 9051, 6.3.2).
    Select(Bytes),
    /// EXAMINE of a mailbox (RFC 9051, 6.3.3).
    Examine(Bytes),
    /// CREATE of a mailbox (RFC 9051, 6.3.4).
    Create(Bytes),
    /// DELETE of a mailbox (RFC 9051, 6.3.5).
    Delete(Bytes),
    /// LIST of the names behind a reference that a pattern takes (RFC 9051, 6.3.9).
    List(Bytes, Bytes),
    /// APPEND to a mailbox of a message with flags, and with a date where one is given (RFC 9051, 6.3.12).
    Append(Bytes, FlagSet, Option<DateText>, Bytes),
    /// STATUS of a mailbox (RFC 9051, 6.3.11).
    Status(Bytes, StatusItems),
    /// IDLE, and the line behind it where it is there (RFC 9051, 6.3.13).
    Idle(Option<Bytes>),
    /// XFER of a mailbox to a server, and a partition of it where one is named.
    Xfer(Bytes, Bytes, Option<Bytes>),
    /// CLOSE (RFC 9051, 6.4.1).
    Close,
    /// UNSELECT (RFC 9051, 6.4.2).
    Unselect,
    /// EXPUNGE, or UID EXPUNGE of a set (RFC 9051, 6.4.3 and 6.4.9).
    Expunge(Option<SetParts>),
    /// SEARCH for the messages that all keys match, or UID SEARCH where that is true (RFC 9051, 6.4.4 and 6.4.9).
    Search(bool, Keys),
    /// FETCH of items of messages, or UID FETCH where that is true (RFC 9051, 6.4.5 and 6.4.9).
    Fetch(bool, SetParts, FetchItems),
    /// STORE of flags in messages, or UID STORE where that is true; whether it is silent (RFC 9051, 6.4.6 and 6.4.9).
    Store(bool, SetParts, Mode, bool, FlagSet),
    /// COPY of messages to a mailbox, or UID COPY where that is true (RFC 9051, 6.4.7 and 6.4.9).
    Copy(bool, SetParts, Bytes),
    /// RENAME, SUBSCRIBE, UNSUBSCRIBE, NAMESPACE, MOVE or UID MOVE (RFC 9051, 6.3.6 to 6.3.8, 6.3.10, 6.4.8 and 6.4.9) or LSUB
    /// (RFC 3501, 6.3.9), none of which can be done here: its frame behind the tag's space, without its last CRLF.
    LeftOut(Bytes),
    /// SETACL of a mailbox, an identifier and rights (RFC 4314, 3.1).
    SetAcl(Bytes, Bytes, Mode, Bytes),
    /// DELETEACL of a mailbox and an identifier (RFC 4314, 3.2).
    DeleteAcl(Bytes, Bytes),
    /// GETACL of a mailbox (RFC 4314, 3.3).
    GetAcl(Bytes),
    /// MYRIGHTS of a mailbox (RFC 4314, 3.5).
    MyRights(Bytes),
}
