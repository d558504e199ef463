// The rules of names of nodes, users and mailboxes.
ghost use Rattle.std.specs.Prelude.{◌≡◌};
ghost use Rattle.std.specs.List.{list_all};
ghost use Rattle.std.specs.Str.{is_utf8};
ghost use Rattle.mur_base.specs.Names.{short_name_fault, has_short_name_bytes, mail_name_fault, is_short_name_byte, is_mail_name_byte, has_mail_name_bytes};
ghost use Rattle.mur_base.specs.Names.{has_empty_level, IsReadAsName};

use crate::limits::{NAME_LIMIT, SHORT_NAME_LIMIT};
use crate::name::{Name, NameFault, NameRule};
use std::alloc::Global;
use std::str;

/// The rule of a node's name: 1 to 64 letters, digits, `-` and `_`.
#[derive(Clone, Copy, Debug)]
pub struct NodeRule;

/// The rule of a user's name, which is that of a node's.
#[derive(Clone, Copy, Debug)]
pub struct UserRule;

/// The rule of a mailbox's name (RFC 9051, 5.1): 1 to 255 bytes of UTF-8 without controls, `"`, `\`, `%` and `*`,
/// in levels that `.` separates and of which none is empty.
#[derive(Clone, Copy, Debug)]
pub struct MailRule;

/// The name of a node of the cluster.
pub type NodeName = Name<NodeRule>;

/// The name of a user.
pub type UserName = Name<UserRule>;

/// The name of a mailbox.
pub type MailName = Name<MailRule>;

impl NameRule for NodeRule {
    ghost use Rattle.mur_base.specs.Names.{short_name_fault};

    ghost fault = { short_name_fault };

    fn fault_of(text: &[u8]) -> Option<NameFault> {
        short_name_fault(text)
    }
}

impl NameRule for UserRule {
    ghost use Rattle.mur_base.specs.Names.{short_name_fault};

    ghost fault = { short_name_fault };

    fn fault_of(text: &[u8]) -> Option<NameFault> {
        short_name_fault(text)
    }
}

impl NameRule for MailRule {
    ghost use Rattle.mur_base.specs.Names.{mail_name_fault};

    ghost fault = { mail_name_fault };

    fn fault_of(text: &[u8]) -> Option<NameFault> {
        mail_name_fault(text)
    }
}

/// The node's name that a text is, refused by the first rule that it breaks.
pub fn node_name(alloc: Global, text: &[u8]) -> Result<NodeName, NameFault>
    ensures { IsReadAsName (short_name_fault text.now) text.now result }
{
    NodeName::read(alloc, text)
}

/// The user's name that a text is, refused by the first rule that it breaks.
pub fn user_name(alloc: Global, text: &[u8]) -> Result<UserName, NameFault>
    ensures { IsReadAsName (short_name_fault text.now) text.now result }
{
    UserName::read(alloc, text)
}

/// The mailbox's name that a text is, refused by the first rule that it breaks.
pub fn mail_name(alloc: Global, text: &[u8]) -> Result<MailName, NameFault>
    ensures { IsReadAsName (mail_name_fault text.now) text.now result }
{
    MailName::read(alloc, text)
}

#[tactic(auto, unfolding(crate::specs::Names::short_name_fault))]
fn short_name_fault(text: &[u8]) -> Option<NameFault>
    ensures { result ≡ short_name_fault text.now }
{
    if text.is_empty() {
        Some(NameFault::Empty)
    } else if text.len() > SHORT_NAME_LIMIT {
        Some(NameFault::TooLong)
    } else if !has_short_name_bytes(text) {
        Some(NameFault::BadByte)
    } else {
        None
    }
}

#[tactic(auto, unfolding(crate::specs::Names::has_short_name_bytes))]
fn has_short_name_bytes(text: &[u8]) -> bool
    ensures { result ≡ has_short_name_bytes text.now }
{
    text.iter().all(|byte| is_short_name_byte(*byte))
}

#[tactic(auto, unfolding(crate::specs::Names::is_short_name_byte))]
fn is_short_name_byte(byte: u8) -> bool
    ensures { result ≡ is_short_name_byte byte }
{
    byte.is_ascii_alphanumeric() || matches!(byte, b'-' | b'_')
}

#[tactic(auto, unfolding(crate::specs::Names::is_mail_name_byte))]
fn is_mail_name_byte(byte: u8) -> bool
    ensures { result ≡ is_mail_name_byte byte }
{
    byte >= b' ' && !matches!(byte, 0x7f | b'"' | b'\\' | b'%' | b'*')
}

#[tactic(auto, unfolding(crate::specs::Names::has_mail_name_bytes))]
fn has_mail_name_bytes(text: &[u8]) -> bool
    ensures { result ≡ has_mail_name_bytes text.now }
{
    is_utf8(text) && has_no_special(text)
}

fn is_utf8(text: &[u8]) -> bool
    ensures { result ≡ is_utf8 text.now }
{
    match str::from_utf8(text) {
        Ok(_) => true,
        Err(_) => false,
    }
}

fn has_no_special(text: &[u8]) -> bool
    ensures { result ≡ list_all is_mail_name_byte text.now }
{
    text.iter().all(|byte| is_mail_name_byte(*byte))
}

#[tactic(auto, unfolding(crate::specs::Names::mail_name_fault))]
fn mail_name_fault(text: &[u8]) -> Option<NameFault>
    ensures { result ≡ mail_name_fault text.now }
{
    if text.is_empty() {
        Some(NameFault::Empty)
    } else if text.len() > NAME_LIMIT {
        Some(NameFault::TooLong)
    } else if !has_mail_name_bytes(text) {
        Some(NameFault::BadByte)
    } else if has_empty_level(text) {
        Some(NameFault::BadLevel)
    } else {
        None
    }
}

#[tactic(auto, unfolding(crate::proofs::EmptyLevels::empty_from))]
fn has_empty_level(text: &[u8]) -> bool
    ensures { result ≡ has_empty_level text.now }
{
    let mut at_begin = true;
    for byte in text {
        if *byte != b'.' {
            at_begin = false;
        } else if at_begin {
            return true;
        } else {
            at_begin = true;
        }
    }
    at_begin
}
