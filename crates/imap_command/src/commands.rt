// The reader of what stands behind the name of a command: a function a command that has more arguments than a mailbox, and a file where
// its arguments are no other's.
ghost use Rattle.std.specs.Prelude.{◌≡◌};
ghost use Rattle.grammar.specs.Gives.{Gives};
ghost use Rattle.imap_command.specs.Commands.{arguments, uid_arguments, copy_command, fetch_command, mailbox_command, search_command, store_command};

pub mod append;
pub mod authenticate;
pub mod fetch;
pub mod list;
pub mod search;
pub mod set_acl;
pub mod status;
pub mod store;

use crate::arguments::{one_string_of, optional_string_of, two_strings_of};
use crate::commands::append::append_of;
use crate::commands::authenticate::authenticate_of;
use crate::commands::fetch::fetch_of;
use crate::commands::list::list_of;
use crate::commands::search::search_of;
use crate::commands::set_acl::set_acl_of;
use crate::commands::status::status_of;
use crate::commands::store::store_of;
use crate::sets::set_of;
use crate::verb::{MailboxVerb, UID_VERBS, UidVerb, Verb};
use grammar::{ReadError, byte_of, several_of, table_of};
use imap_text::Atom;
use imap_types::Command;
use mur_base::Bytes;
use std::alloc::Global;

#[tactic(auto, unfolding(crate::specs::Commands::arguments))]
fn append_command(alloc: Global, bytes: &[u8]) -> Result<(Command, &[u8]), ReadError>
    ensures { Gives (λ x. (x.0, x.1.now)) result ((arguments Verb.Append).part.at bytes.now) }
{
    let ((mailbox, (flags, (date, message))), rest) = append_of(alloc, bytes)?;
    Ok((Command::Append(mailbox, flags, date, message), rest))
}

fn copy_command(alloc: Global, by_uid: bool, bytes: &[u8]) -> Result<(Command, &[u8]), ReadError>
    ensures { Gives (λ x. (x.0, x.1.now)) result ((copy_command by_uid).part.at bytes.now) }
{
    let rest = byte_of(b' ', bytes)?;
    let (set, rest) = set_of(alloc, rest)?;
    let (mailbox, rest) = one_string_of(alloc, rest)?;
    Ok((Command::Copy(by_uid, set, mailbox), rest))
}

/// The command of a mailbox that a name says.
fn mailbox_command(name: MailboxVerb, mailbox: Bytes) -> Command
    ensures { result ≡ mailbox_command name mailbox }
{
    match name {
        MailboxVerb::Create => Command::Create(mailbox),
        MailboxVerb::Delete => Command::Delete(mailbox),
        MailboxVerb::Examine => Command::Examine(mailbox),
        MailboxVerb::GetAcl => Command::GetAcl(mailbox),
        MailboxVerb::MyRights => Command::MyRights(mailbox),
        MailboxVerb::Select => Command::Select(mailbox),
    }
}

/// Reads the mailbox of a command that has no other argument.
#[tactic(auto, unfolding(crate::specs::Commands::arguments))]
fn named_command(
    alloc: Global,
    name: MailboxVerb,
    bytes: &[u8],
) -> Result<(Command, &[u8]), ReadError>
    ensures { Gives (λ x. (x.0, x.1.now)) result ((arguments (Verb.Mailbox name)).part.at bytes.now) }
{
    let (mailbox, rest) = one_string_of(alloc, bytes)?;
    Ok((mailbox_command(name, mailbox), rest))
}

#[tactic(auto, unfolding(crate::specs::Commands::arguments))]
fn delete_acl_command(alloc: Global, bytes: &[u8]) -> Result<(Command, &[u8]), ReadError>
    ensures { Gives (λ x. (x.0, x.1.now)) result ((arguments Verb.DeleteAcl).part.at bytes.now) }
{
    let ((one, other), rest) = two_strings_of(alloc, bytes)?;
    Ok((Command::DeleteAcl(one, other), rest))
}

#[tactic(auto, unfolding(crate::specs::Commands::arguments))]
fn login_command(alloc: Global, bytes: &[u8]) -> Result<(Command, &[u8]), ReadError>
    ensures { Gives (λ x. (x.0, x.1.now)) result ((arguments Verb.Login).part.at bytes.now) }
{
    let ((one, other), rest) = two_strings_of(alloc, bytes)?;
    Ok((Command::Login(one, other), rest))
}

#[tactic(auto, unfolding(crate::specs::Commands::arguments))]
fn enable_command(alloc: Global, bytes: &[u8]) -> Result<(Command, &[u8]), ReadError>
    ensures { Gives (λ x. (x.0, x.1.now)) result ((arguments Verb.Enable).part.at bytes.now) }
{
    let rest = byte_of(b' ', bytes)?;
    let (names, rest) = several_of(alloc, b' ', &Atom, rest)?;
    Ok((Command::Enable(names), rest))
}

#[tactic(auto, unfolding(crate::specs::Commands::arguments))]
fn status_command(alloc: Global, bytes: &[u8]) -> Result<(Command, &[u8]), ReadError>
    ensures { Gives (λ x. (x.0, x.1.now)) result ((arguments Verb.Status).part.at bytes.now) }
{
    let ((mailbox, items), rest) = status_of(alloc, bytes)?;
    Ok((Command::Status(mailbox, items), rest))
}

#[tactic(auto, unfolding(crate::specs::Commands::arguments))]
fn authenticate_command(alloc: Global, bytes: &[u8]) -> Result<(Command, &[u8]), ReadError>
    ensures { Gives (λ x. (x.0, x.1.now)) result ((arguments Verb.Authenticate).part.at bytes.now) }
{
    let (response, rest) = authenticate_of(alloc, bytes)?;
    Ok((Command::Authenticate(response), rest))
}

#[tactic(auto, unfolding(crate::specs::Commands::arguments))]
fn list_command(alloc: Global, bytes: &[u8]) -> Result<(Command, &[u8]), ReadError>
    ensures { Gives (λ x. (x.0, x.1.now)) result ((arguments Verb.List).part.at bytes.now) }
{
    let ((reference, pattern), rest) = list_of(alloc, bytes)?;
    Ok((Command::List(reference, pattern), rest))
}

#[tactic(auto, unfolding(crate::specs::Commands::arguments))]
fn set_acl_command(alloc: Global, bytes: &[u8]) -> Result<(Command, &[u8]), ReadError>
    ensures { Gives (λ x. (x.0, x.1.now)) result ((arguments Verb.SetAcl).part.at bytes.now) }
{
    let ((mailbox, (id, (mode, rights))), rest) = set_acl_of(alloc, bytes)?;
    Ok((Command::SetAcl(mailbox, id, mode, rights), rest))
}

#[tactic(auto, unfolding(crate::specs::Commands::arguments))]
fn xfer_command(alloc: Global, bytes: &[u8]) -> Result<(Command, &[u8]), ReadError>
    ensures { Gives (λ x. (x.0, x.1.now)) result ((arguments Verb.Xfer).part.at bytes.now) }
{
    let ((mailbox, server), rest) = two_strings_of(alloc, bytes)?;
    let (partition, rest) = optional_string_of(alloc, rest)?;
    Ok((Command::Xfer(mailbox, server, partition), rest))
}

fn fetch_command(alloc: Global, by_uid: bool, bytes: &[u8]) -> Result<(Command, &[u8]), ReadError>
    ensures { Gives (λ x. (x.0, x.1.now)) result ((fetch_command by_uid).part.at bytes.now) }
{
    let ((set, items), rest) = fetch_of(alloc, bytes)?;
    Ok((Command::Fetch(by_uid, set, items), rest))
}

fn search_command(alloc: Global, by_uid: bool, bytes: &[u8]) -> Result<(Command, &[u8]), ReadError>
    ensures { Gives (λ x. (x.0, x.1.now)) result ((search_command by_uid).part.at bytes.now) }
{
    let (keys, rest) = search_of(alloc, bytes)?;
    Ok((Command::Search(by_uid, keys), rest))
}

fn store_command(alloc: Global, by_uid: bool, bytes: &[u8]) -> Result<(Command, &[u8]), ReadError>
    ensures { Gives (λ x. (x.0, x.1.now)) result ((store_command by_uid).part.at bytes.now) }
{
    let ((set, ((mode, is_silent), flags)), rest) = store_of(alloc, bytes)?;
    Ok((Command::Store(by_uid, set, mode, is_silent, flags), rest))
}

#[tactic(auto, unfolding(crate::specs::Commands::uid_arguments))]
fn uid_expunge_command(alloc: Global, bytes: &[u8]) -> Result<(Command, &[u8]), ReadError>
    ensures { Gives (λ x. (x.0, x.1.now)) result ((uid_arguments UidVerb.Expunge).part.at bytes.now) }
{
    let rest = byte_of(b' ', bytes)?;
    let (set, rest) = set_of(alloc, rest)?;
    Ok((Command::Expunge(Some(set)), rest))
}

/// Reads what stands behind a word behind UID.
#[tactic(auto, unfolding(crate::specs::Commands::uid_arguments))]
fn uid_arguments_of(
    alloc: Global,
    verb: UidVerb,
    bytes: &[u8],
) -> Result<(Command, &[u8]), ReadError>
    ensures { Gives (λ x. (x.0, x.1.now)) result ((uid_arguments verb).part.at bytes.now) }
{
    match verb {
        UidVerb::Copy => copy_command(alloc, true, bytes),
        UidVerb::Expunge => uid_expunge_command(alloc, bytes),
        UidVerb::Fetch => fetch_command(alloc, true, bytes),
        UidVerb::Search => search_command(alloc, true, bytes),
        UidVerb::Store => store_command(alloc, true, bytes),
    }
}

#[tactic(auto, unfolding(crate::specs::Commands::arguments))]
fn uid_command(alloc: Global, bytes: &[u8]) -> Result<(Command, &[u8]), ReadError>
    ensures { Gives (λ x. (x.0, x.1.now)) result ((arguments Verb.Uid).part.at bytes.now) }
{
    let rest = byte_of(b' ', bytes)?;
    let (verb, rest) = table_of(UidVerb::Copy, &UID_VERBS, rest)?;
    uid_arguments_of(alloc, verb, rest)
}

/// Reads what stands behind the name of a command.
#[tactic(auto, unfolding(crate::specs::Commands::arguments))]
pub fn arguments_of(alloc: Global, verb: Verb, bytes: &[u8]) -> Result<(Command, &[u8]), ReadError>
    ensures { Gives (λ x. (x.0, x.1.now)) result ((arguments verb).part.at bytes.now) }
{
    match verb {
        Verb::Append => append_command(alloc, bytes),
        Verb::Authenticate => authenticate_command(alloc, bytes),
        Verb::Capability => Ok((Command::Capability, bytes)),
        Verb::Close => Ok((Command::Close, bytes)),
        Verb::Copy => copy_command(alloc, false, bytes),
        Verb::DeleteAcl => delete_acl_command(alloc, bytes),
        Verb::Enable => enable_command(alloc, bytes),
        Verb::Expunge => Ok((Command::Expunge(None), bytes)),
        Verb::Fetch => fetch_command(alloc, false, bytes),
        Verb::Idle => Ok((Command::Idle(None), bytes)),
        Verb::List => list_command(alloc, bytes),
        Verb::Login => login_command(alloc, bytes),
        Verb::Logout => Ok((Command::Logout, bytes)),
        Verb::Mailbox(name) => named_command(alloc, name, bytes),
        Verb::Noop => Ok((Command::Noop, bytes)),
        Verb::Search => search_command(alloc, false, bytes),
        Verb::SetAcl => set_acl_command(alloc, bytes),
        Verb::Status => status_command(alloc, bytes),
        Verb::Store => store_command(alloc, false, bytes),
        Verb::Uid => uid_command(alloc, bytes),
        Verb::Unselect => Ok((Command::Unselect, bytes)),
        Verb::Xfer => xfer_command(alloc, bytes),
    }
}
