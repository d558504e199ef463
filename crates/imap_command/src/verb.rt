// The names of the commands (RFC 9051, 9; RFC 4314, 4).
ghost use Rattle.std.specs.Prelude.{◌≡◌};
ghost use Rattle.imap_command.specs.Commands.{words_text};

use imap_types::Command;

/// What the first word of a command says.
#[derive(Clone, Copy)]
pub enum Verb {
    Append,
    Authenticate,
    Capability,
    Close,
    Copy,
    DeleteAcl,
    Enable,
    Expunge,
    Fetch,
    Idle,
    List,
    Login,
    Logout,
    Mailbox(MailboxVerb),
    Noop,
    Search,
    SetAcl,
    Status,
    Store,
    Uid,
    Unselect,
    Xfer,
}

/// What a name says behind which a mailbox stands, and nothing else.
#[derive(Clone, Copy)]
pub enum MailboxVerb {
    Create,
    Delete,
    Examine,
    GetAcl,
    MyRights,
    Select,
}

/// The names of the commands.
pub const VERBS: [(&[u8], Verb); 27] = [
    (b"APPEND", Verb::Append),
    (b"AUTHENTICATE", Verb::Authenticate),
    (b"CAPABILITY", Verb::Capability),
    (b"CLOSE", Verb::Close),
    (b"COPY", Verb::Copy),
    (b"CREATE", Verb::Mailbox(MailboxVerb::Create)),
    (b"DELETE", Verb::Mailbox(MailboxVerb::Delete)),
    (b"DELETEACL", Verb::DeleteAcl),
    (b"ENABLE", Verb::Enable),
    (b"EXAMINE", Verb::Mailbox(MailboxVerb::Examine)),
    (b"EXPUNGE", Verb::Expunge),
    (b"FETCH", Verb::Fetch),
    (b"GETACL", Verb::Mailbox(MailboxVerb::GetAcl)),
    (b"IDLE", Verb::Idle),
    (b"LIST", Verb::List),
    (b"LOGIN", Verb::Login),
    (b"LOGOUT", Verb::Logout),
    (b"MYRIGHTS", Verb::Mailbox(MailboxVerb::MyRights)),
    (b"NOOP", Verb::Noop),
    (b"SEARCH", Verb::Search),
    (b"SELECT", Verb::Mailbox(MailboxVerb::Select)),
    (b"SETACL", Verb::SetAcl),
    (b"STATUS", Verb::Status),
    (b"STORE", Verb::Store),
    (b"UID", Verb::Uid),
    (b"UNSELECT", Verb::Unselect),
    (b"XFER", Verb::Xfer),
];

/// What the word behind UID says.
#[derive(Clone, Copy)]
pub enum UidVerb {
    Copy,
    Expunge,
    Fetch,
    Search,
    Store,
}

/// The names that stand behind UID.
pub const UID_VERBS: [(&[u8], UidVerb); 5] = [
    (b"COPY", UidVerb::Copy),
    (b"EXPUNGE", UidVerb::Expunge),
    (b"FETCH", UidVerb::Fetch),
    (b"SEARCH", UidVerb::Search),
    (b"STORE", UidVerb::Store),
];

/// The words that a command begins with; of one that is left out, which is printed as it stands, they say nothing.
#[tactic(auto, unfolding(crate::specs::Commands::printed_as, crate::specs::Commands::words_text, crate::specs::Verbs::name_text, crate::specs::Verbs::is_uid_verb))]
pub fn words_of(command: &Command) -> &'static [u8]
    ensures { result.now ≡ words_text command.now }
{
    match command {
        Command::Append(..) => b"APPEND",
        Command::Authenticate(_) => b"AUTHENTICATE",
        Command::Capability => b"CAPABILITY",
        Command::Close => b"CLOSE",
        Command::Copy(false, ..) => b"COPY",
        Command::Copy(true, ..) => b"UID COPY",
        Command::Create(_) => b"CREATE",
        Command::Delete(_) => b"DELETE",
        Command::DeleteAcl(..) => b"DELETEACL",
        Command::Enable(_) => b"ENABLE",
        Command::Examine(_) => b"EXAMINE",
        Command::Expunge(None) => b"EXPUNGE",
        Command::Expunge(Some(_)) => b"UID EXPUNGE",
        Command::Fetch(false, ..) => b"FETCH",
        Command::Fetch(true, ..) => b"UID FETCH",
        Command::GetAcl(_) => b"GETACL",
        Command::Idle(_) => b"IDLE",
        Command::LeftOut(_) => b"NOOP",
        Command::List(..) => b"LIST",
        Command::Login(..) => b"LOGIN",
        Command::Logout => b"LOGOUT",
        Command::MyRights(_) => b"MYRIGHTS",
        Command::Noop => b"NOOP",
        Command::Search(false, _) => b"SEARCH",
        Command::Search(true, _) => b"UID SEARCH",
        Command::Select(_) => b"SELECT",
        Command::SetAcl(..) => b"SETACL",
        Command::Status(..) => b"STATUS",
        Command::Store(false, ..) => b"STORE",
        Command::Store(true, ..) => b"UID STORE",
        Command::Unselect => b"UNSELECT",
        Command::Xfer(..) => b"XFER",
    }
}
