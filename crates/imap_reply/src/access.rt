// Access lists and rights (RFC 4314, 3.6 and 3.8).
ghost use Rattle.std.specs.Prelude.{◌≡◌, [], ◌∷◌, ◌++◌, ◌<◌, length, position, OnOk, IfNone, IfSome};
ghost use Rattle.std.specs.List.{list_any, slice_split};
ghost use Rattle.mur_base.specs.Ascii.{space};
ghost use Rattle.imap_reply.specs.Mailbox.{mailbox_text};
ghost use Rattle.imap_reply.specs.AccessLines.{is_tab, is_create, is_delete, create_text, delete_text, rights_text, entries_text, acl_line, my_rights_line};

use crate::mailbox::put_mailbox;
use mur_base::{Bytes, Memory};

/// Writes the access list of a mailbox.
#[tactic(auto, using(std::proofs::lemmas::Grind::common_steps), unfolding(crate::specs::AccessLines::acl_line))]
pub fn put_acl(name: &[u8], acl: &[u8], out: &mut Bytes) -> Result<(), Memory>
    ensures { OnOk result (out.new ≡ out.old ++ acl_line name.now acl.now) }
{
    out.extend_from_slice(b"* ACL ")?;
    put_mailbox(name, out)?;
    put_entries(acl, out)?;
    out.extend_from_slice(b"\r\n")
}

/// Writes the user's rights on a mailbox.
#[tactic(auto, using(std::proofs::lemmas::Grind::common_steps), unfolding(crate::specs::AccessLines::my_rights_line))]
pub fn put_my_rights(name: &[u8], letters: &[u8], out: &mut Bytes) -> Result<(), Memory>
    ensures { OnOk result (out.new ≡ out.old ++ my_rights_line name.now letters.now) }
{
    out.extend_from_slice(b"* MYRIGHTS ")?;
    put_mailbox(name, out)?;
    out.push(b' ')?;
    put_rights(letters, out)?;
    out.extend_from_slice(b"\r\n")
}

/// Writes each identifier of an access list with its rights.
fn put_entries(acl: &[u8], out: &mut Bytes) -> Result<(), Memory>
    ensures { OnOk result (out.new ≡ out.old ++ entries_text (slice_split is_tab acl.now)) }
{
    let mut rest = acl;
    while let Some((identifier, behind)) = cut(rest) {
        match cut(behind) {
            Some((rights, more)) => {
                put_entry(identifier, rights, out)?;
                rest = more;
            }
            None => return put_entry(identifier, behind, out),
        }
    }
    Ok(())
}

/// The text before the first TAB, and what stands behind it.
fn cut(text: &[u8]) -> Option<(&[u8], &[u8])>
    ensures none { IfNone result (slice_split is_tab text.now ≡ text.now ∷ []) }
    ensures some { IfSome result (λ x. slice_split is_tab text.now ≡ x.0.now ∷ slice_split is_tab x.1.now) }
    ensures shorter { IfSome result (λ x. length x.1.now < length text.now) }
{
    let at = tab_in(text)?;
    Some((&text[..at], &text[at + 1..]))
}

fn put_entry(identifier: &[u8], rights: &[u8], out: &mut Bytes) -> Result<(), Memory>
    ensures { OnOk result (out.new ≡ out.old ++ space ∷ (mailbox_text identifier.now ++ space ∷ rights_text rights.now)) }
{
    out.push(b' ')?;
    put_mailbox(identifier, out)?;
    out.push(b' ')?;
    put_rights(rights, out)
}

fn tab_in(text: &[u8]) -> Option<usize>
    ensures place { result ≡ position is_tab text.now }
    ensures within { IfSome result (λ at. at < length text.now) }
{
    text.iter().position(|byte| *byte == b'\t')
}

/// Writes rights, and behind them those of RFC 2086 that they stand for (RFC 4314, 2.1.1).
#[tactic(auto, using(std::proofs::lemmas::Grind::common_steps), unfolding(crate::specs::AccessLines::rights_text))]
fn put_rights(letters: &[u8], out: &mut Bytes) -> Result<(), Memory>
    ensures { OnOk result (out.new ≡ out.old ++ rights_text letters.now) }
{
    out.extend_from_slice(letters)?;
    out.extend_from_slice(create_text(letters))?;
    out.extend_from_slice(delete_text(letters))
}

#[tactic(auto, unfolding(crate::specs::AccessLines::create_text))]
fn create_text(letters: &[u8]) -> &'static [u8]
    ensures { result.now ≡ create_text letters.now }
{
    if has_create(letters) { b"c" } else { b"" }
}

#[tactic(auto, unfolding(crate::specs::AccessLines::delete_text))]
fn delete_text(letters: &[u8]) -> &'static [u8]
    ensures { result.now ≡ delete_text letters.now }
{
    if has_delete(letters) { b"d" } else { b"" }
}

fn has_create(letters: &[u8]) -> bool
    ensures { result ≡ list_any is_create letters.now }
{
    letters.iter().any(|letter| is_create(*letter))
}

fn has_delete(letters: &[u8]) -> bool
    ensures { result ≡ list_any is_delete letters.now }
{
    letters.iter().any(|letter| is_delete(*letter))
}

fn is_create(letter: u8) -> bool
    ensures { result ≡ is_create letter }
{
    letter == b'k'
}

fn is_delete(letter: u8) -> bool
    ensures { result ≡ is_delete letter }
{
    matches!(letter, b'x' | b't' | b'e')
}
