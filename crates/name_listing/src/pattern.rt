// The pattern of a LIST (RFC 9051, 6.3.9).
ghost use Rattle.std.specs.Prelude.{◌≡◌, ◌≤◌, length, IfOk};
ghost use Rattle.mur_base.specs.declared.limits.TheConstants.{NAME_LIMIT};
ghost use Rattle.mur_base.specs.Patterns.{is_wildcard, matches};
ghost use Rattle.std.specs.Option.{option_map};
ghost use Rattle.mur_base.specs.Inbox.{is_level_end, behind_inbox};
ghost use Rattle.name_listing.specs.Listing.{IsPlainFront, asks_separator, pattern_of, ends_in_percent};

use mur_base::{Bytes, Memory, matches};
use std::alloc::Global;
use std::marker::Model;

/// What names have to match to be listed.
#[derive(Drop)]
pub struct Pattern {
    bytes: Bytes,
    // Before so many bytes no wildcard stands: a text that doesn't begin with them doesn't match.
    front: usize,
}

impl Model for Pattern {
    ghost use Rattle.std.specs.Prelude.{List, ℕ};

    ghost Value = { List ℕ };

    ghost view = { λ pattern. pattern.bytes };

    ghost use Rattle.name_listing.specs.Listing.{IsPlainFront};

    ghost invariant = { λ pattern. IsPlainFront pattern.front pattern.bytes };
}

impl Pattern {
    /// The pattern of a command: its mailbox argument behind its reference. A first level that is INBOX in any case is taken as `INBOX`.
    #[tactic(auto, unfolding(crate::specs::Listing::pattern_of))]
    pub fn of(alloc: Global, reference: &[u8], mailbox: &[u8]) -> Result<Pattern, Memory>
        ensures { IfOk result (λ pattern. pattern ≡ pattern_of reference.now mailbox.now) }
    {
        let mut joined = Bytes::from_slice(alloc, reference)?;
        joined.extend_from_slice(mailbox)?;
        match behind_inbox(joined.as_slice()) {
            None => Ok(Pattern::with_front(joined)),
            Some(rest) => {
                let mut bytes = Bytes::from_slice(alloc, b"INBOX")?;
                bytes.extend_from_slice(rest)?;
                Ok(Pattern::with_front(bytes))
            }
        }
    }

    fn with_front(bytes: Bytes) -> Pattern
        ensures { result ≡ bytes }
    {
        let front = plain_front(bytes.as_slice());
        Pattern { bytes, front }
    }

    /// Whether a text of at most `NAME_LIMIT` bytes matches. One that doesn't begin as the pattern does costs a comparison.
    pub fn fits(&self, text: &[u8]) -> bool
        requires { length text.now ≤ NAME_LIMIT }
        ensures { result ≡ matches self.now text.now }
    {
        let bytes = self.bytes.as_slice();
        text.starts_with(&bytes[..self.front]) && matches(&bytes[self.front..], &text[self.front..])
    }

    pub fn as_bytes(&self) -> &[u8]
        ensures { result.now ≡ self.now }
    {
        self.bytes.as_slice()
    }

    /// Whether levels above mailboxes are listed too.
    #[tactic(auto, unfolding(crate::specs::Listing::ends_in_percent))]
    pub fn ends_in_percent(&self) -> bool
        ensures { result ≡ ends_in_percent self.now }
    {
        self.as_bytes().ends_with(b"%")
    }
}

#[tactic(auto, unfolding(mur_base::specs::Patterns::is_wildcard))]
fn is_wildcard(byte: u8) -> bool
    ensures { result ≡ is_wildcard byte }
{
    byte == b'*' || byte == b'%'
}

// How many bytes stand before the first wildcard.
fn plain_front(bytes: &[u8]) -> usize
    ensures { IsPlainFront result bytes.now }
{
    for i in 0..bytes.len() {
        if is_wildcard(bytes[i]) {
            return i;
        }
    }
    bytes.len()
}

/// Whether a LIST asks for no names but for the separator of levels: its mailbox argument is empty, whatever its reference. It is answered one line,
/// of the empty name, which can't be selected.
#[tactic(auto, unfolding(crate::specs::Listing::asks_separator))]
pub fn asks_separator(mailbox: &[u8]) -> bool
    ensures { result ≡ asks_separator mailbox.now }
{
    mailbox.is_empty()
}

// As mur_base takes INBOX in names.
#[tactic(auto, unfolding(mur_base::specs::Inbox::behind_inbox))]
fn behind_inbox(text: &[u8]) -> Option<&[u8]>
    ensures { option_map (λ rest. rest.now) result ≡ behind_inbox text.now }
{
    if text.len() >= 5 && text[..5].eq_ignore_ascii_case(b"inbox") && is_level_end(&text[5..]) {
        Some(&text[5..])
    } else {
        None
    }
}

#[tactic(auto, unfolding(mur_base::specs::Inbox::is_level_end))]
fn is_level_end(text: &[u8]) -> bool
    ensures { result ≡ is_level_end text.now }
{
    match text {
        [] => true,
        [byte, ..] => *byte == b'.',
    }
}
