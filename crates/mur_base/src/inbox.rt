// The names that a user is shown, and those that a user's texts mean (RFC 9051, 5.1).
ghost use Rattle.std.specs.Prelude.{◌≡◌, ◌⊎◌, ℕ, List, None, Some, IfOk, IfErr};
ghost use Rattle.std.specs.Option.{option_map};
ghost use Rattle.mur_base.specs.Names.{mail_name_fault};
ghost use Rattle.mur_base.specs.Inbox.{own_name, is_level_end, behind, behind_inbox, shown_name, taken_name, owns, is_own};

use crate::list::Bytes;
use crate::memory::Memory;
use crate::name::NameFault;
use crate::name_rules::{MailName, UserName, mail_name};
use std::alloc::Global;

/// A name as a user is shown it: their own mailbox `user.NAME` is `INBOX`, and what is below it is below `INBOX`.
#[tactic(auto, unfolding(crate::specs::Inbox::shown_name))]
pub fn shown(alloc: Global, user: &UserName, name: &MailName) -> Result<Bytes, Memory>
    ensures { IfOk result (λ text. text ≡ shown_name user.now name.now) }
{
    let own = own_name(alloc, user)?;
    match behind(own.as_slice(), name.as_bytes()) {
        None => Bytes::from_slice(alloc, name.as_bytes()),
        Some(rest) => {
            let mut text = Bytes::from_slice(alloc, b"INBOX")?;
            text.extend_from_slice(rest)?;
            Ok(text)
        }
    }
}

/// The name that a user means by a text, in which `INBOX` of any case is their own mailbox. What it means is refused as
/// every name is, by the first rule that it breaks.
#[tactic(auto, unfolding(crate::specs::Inbox::taken_name))]
pub fn taken(alloc: Global, user: &UserName, text: &[u8]) -> Result<MailName, NameFault>
    ensures name { IfOk result (λ name. name ≡ taken_name user.now text.now) }
    ensures kept { IfOk result (λ name. mail_name_fault (taken_name user.now text.now) ≡ None) }
    ensures refused { IfErr result (λ fault. (fault ≡ NameFault.Memory) ⊎ (mail_name_fault (taken_name user.now text.now) ≡ Some fault)) }
{
    match behind_inbox(text) {
        None => mail_name(alloc, text),
        Some(rest) => {
            let mut name = own_name(alloc, user)?;
            name.extend_from_slice(rest)?;
            mail_name(alloc, name.as_slice())
        }
    }
}

/// What a user is shown of a name is taken for that name, unless its first level is INBOX in any case.
pub fn what_is_shown_is_taken()
    ensures { (user name : List ℕ) → behind_inbox name ≡ None → taken_name user (shown_name user name) ≡ name }
{}

/// Whether a name is in a user's personal namespace: their own mailbox `user.NAME` or one below it (RFC 2342, 3). It
/// takes no memory.
pub fn owns(user: &UserName, name: &MailName) -> bool
    ensures { result ≡ owns user.now name.now }
{
    let name = name.as_bytes();
    name.starts_with(b"user.") && behind(user.as_bytes(), &name[5..]).is_some()
}

/// Whether a name is that of a user's own mailbox, `user.NAME`. It takes no memory.
pub fn is_own(user: &UserName, name: &MailName) -> bool
    ensures { result ≡ is_own user.now name.now }
{
    let name = name.as_bytes();
    name.starts_with(b"user.") && user.as_bytes() == &name[5..]
}

#[tactic(auto, unfolding(crate::specs::Inbox::own_name))]
fn own_name(alloc: Global, user: &UserName) -> Result<Bytes, Memory>
    ensures { IfOk result (λ name. name ≡ own_name user.now) }
{
    let mut name = Bytes::from_slice(alloc, b"user.")?;
    name.extend_from_slice(user.as_bytes())?;
    Ok(name)
}

#[tactic(auto, unfolding(crate::specs::Inbox::is_level_end))]
fn is_level_end(text: &[u8]) -> bool
    ensures { result ≡ is_level_end text.now }
{
    match text {
        [] => true,
        [byte, ..] => *byte == b'.',
    }
}

#[tactic(auto, unfolding(crate::specs::Inbox::behind))]
fn behind<'a>(top: &[u8], name: &'a [u8]) -> Option<&'a [u8]>
    ensures { option_map (λ rest. rest.now) result ≡ behind top.now name.now }
{
    if name.starts_with(top) && is_level_end(&name[top.len()..]) {
        Some(&name[top.len()..])
    } else {
        None
    }
}

#[tactic(auto, unfolding(crate::specs::Inbox::behind_inbox))]
fn behind_inbox(text: &[u8]) -> Option<&[u8]>
    ensures { option_map (λ rest. rest.now) result ≡ behind_inbox text.now }
{
    if text.len() >= 5 && text[..5].eq_ignore_ascii_case(b"inbox") && is_level_end(&text[5..]) {
        Some(&text[5..])
    } else {
        None
    }
}
