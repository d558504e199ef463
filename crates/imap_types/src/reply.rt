// What a client is answered (RFC 9051, 7.1).
ghost use Rattle.std.specs.Prelude.{◌≡◌, IfOk};
ghost use Rattle.imap_types.specs.Reply.{completed, refused};

use crate::command::StatusItem;
use mail_message::{FlagName, Uids};
use mur_base::{Bytes, Items, Memory};
use std::alloc::Global;

/// How much of an item of STATUS there is.
#[derive(Clone, Copy, Debug, PartialEq, Eq)]
pub struct StatusCount {
    pub item: StatusItem,
    pub count: u64,
}

/// What one STATUS tells, in the order in which it was asked.
pub type StatusCounts = Items<StatusCount>;

/// Flags in the order in which they are told (RFC 9051, 2.3.2).
pub type FlagNames = Items<FlagName>;

/// What a FETCH tells of one message, an item each.
pub type Parts = Items<Bytes>;

/// Why a connection ends, with the text of its BYE (RFC 9051, 7.1.5).
#[derive(Clone, Copy, Debug, PartialEq, Eq)]
pub enum Bye {
    /// The client asked for it.
    Logout,
    /// The selected mailbox is no more.
    Gone,
    /// Whether the command was carried out isn't known.
    Lost,
    /// A command has too many bytes outside its literals.
    LineTooLong,
    /// A literal that comes unasked is too long.
    LiteralTooLong,
}

/// What is told of a name in a LIST (RFC 9051, 7.3.1).
#[derive(Clone, Copy, Debug, PartialEq, Eq)]
pub enum Attribute {
    /// It is a mailbox.
    None,
    /// It can't be selected.
    NoSelect,
    /// There is no such mailbox, but there are some below it.
    NonExistent,
}

/// An untagged line of a reply.
#[derive(Drop)]
pub enum ReplyLine {
    /// What the server can do (RFC 9051, 7.2.2).
    Capability,
    /// The connection ends (RFC 9051, 7.1.5).
    Bye(Bye),
    /// What ENABLE has switched on: nothing (RFC 9051, 7.2.1).
    Enabled,
    /// The mailbox that was selected is so no more (RFC 9051, 7.1).
    Closed,
    /// The flags of the mailbox (RFC 9051, 7.3.5).
    Flags(FlagNames),
    /// The number of messages (RFC 9051, 7.4.1).
    Exists(u32),
    /// A name as it is shown (RFC 9051, 7.3.1).
    Listed(Attribute, Bytes),
    /// The flags that the client can change for good, and whether it can make keywords (RFC 9051, 7.1).
    Permanent(FlagNames, bool),
    /// The UID that the next message gets (RFC 9051, 7.1).
    UidNext(u32),
    /// The UIDVALIDITY of the mailbox (RFC 9051, 7.1).
    UidValidity(u32),
    /// The items of a mailbox, under its name as it is shown (RFC 9051, 7.3.3).
    Status(Bytes, StatusCounts),
    /// The numbers that a SEARCH found, in rising order; whether they are UIDs (RFC 9051, 7.3.4).
    Search(bool, Uids),
    /// The message of this number is no more (RFC 9051, 7.5.1).
    Expunge(u32),
    /// What there is of the message of this number (RFC 9051, 7.5.2).
    Fetch(u32, Parts),
    /// The access list of a mailbox, under its name as it is shown (RFC 4314, 3.6).
    Acl(Bytes, Bytes),
    /// The user's rights on a mailbox, under its name as it is shown (RFC 4314, 3.8).
    MyRights(Bytes, Bytes),
}

/// The untagged lines of a reply, in order.
pub type ReplyLines = Items<ReplyLine>;

/// The response code of a tagged OK (RFC 9051, 7.1).
#[derive(Drop)]
pub enum Code {
    /// There is none.
    None,
    /// The UIDVALIDITY of a mailbox, and the UID that its new message got.
    AppendUid(u32, u32),
    /// The UIDVALIDITY of a mailbox, the UIDs that were copied, and those that the copies got, both in rising order.
    CopyUid(u32, Uids, Uids),
    /// Some of the messages that were named are no more.
    ExpungeIssued,
    /// The mailbox is selected to be changed.
    ReadWrite,
    /// The mailbox is selected to be read.
    ReadOnly,
}

/// Why a command was refused, with the text of its NO.
#[derive(Clone, Copy, Debug, PartialEq, Eq)]
pub enum NoText {
    /// No user has this name and password.
    AuthenticationFailed,
    /// CREATE of a mailbox that is there.
    AlreadyExists,
    /// There is no such mailbox, or the text is no name.
    NonExistent,
    /// The same for APPEND, whose client may create it.
    TryCreate,
    /// The user has no right to it.
    NoPerm,
    /// It can't be done, whoever asks.
    Cannot,
    /// A limit would be passed.
    Limit,
    /// The mailbox goes from one server to another.
    BeingMoved,
    /// A server can't be asked.
    NotReached,
}

/// Why a command was not understood, with the text of its BAD.
#[derive(Clone, Copy, Debug, PartialEq, Eq)]
pub enum BadText {
    /// The line is no command.
    Syntax,
    /// The command isn't allowed in the session's state.
    State,
    /// The mailbox has no message of this number.
    Message,
}

/// The tagged line of a reply.
#[derive(Drop)]
pub enum Verdict {
    /// There is none: the connection ends before.
    Nothing,
    /// OK, with the command's name in capitals.
    Ok(Code, Bytes),
    No(NoText),
    Bad(BadText),
}

/// The reply of one command.
#[derive(Drop)]
pub struct Reply {
    pub lines: ReplyLines,
    pub verdict: Verdict,
}

/// The reply of a command that was carried out and has no more to tell; its name is in capitals.
pub fn completed(alloc: Global, name: &[u8]) -> Result<Reply, Memory>
    ensures { IfOk result (λ reply. reply ≡ completed name.now) }
{
    Ok(Reply {
        lines: ReplyLines::new(alloc),
        verdict: Verdict::Ok(Code::None, Bytes::from_slice(alloc, name)?),
    })
}

/// The reply of a command that was refused. It takes no memory.
pub fn refused(alloc: Global, why: NoText) -> Reply
    ensures { result ≡ refused why }
{
    Reply {
        lines: ReplyLines::new(alloc),
        verdict: Verdict::No(why),
    }
}
