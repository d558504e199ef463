// SETACL (RFC 4314, 3.1).
ghost use Rattle.std.specs.Prelude.{◌≡◌, ◌++◌, OnOk, IfOk};
ghost use Rattle.grammar.specs.Forms.{◌spaced◌};
ghost use Rattle.grammar.specs.Gives.{Gives};
ghost use Rattle.imap_command.specs.SetAcl.{rights_of, signed, mod_rights, set_acl};
ghost use Rattle.imap_text.specs.Strings.{argument};

use grammar::{ReadError, byte_of};
use imap_text::{astring_of, put_astring};
use mail_message::Mode;
use mur_base::{Bytes, Memory};
use std::alloc::Global;

/// What the sign before rights says, and the rights.
fn rights_of(alloc: Global, text: &[u8]) -> Result<(Mode, Bytes), Memory>
    ensures { IfOk result (λ x. x ≡ rights_of text.now) }
{
    match text {
        [b'+', rights @ ..] => Ok((Mode::Add, Bytes::from_slice(alloc, rights)?)),
        [b'-', rights @ ..] => Ok((Mode::Remove, Bytes::from_slice(alloc, rights)?)),
        _ => Ok((Mode::Replace, Bytes::from_slice(alloc, text)?)),
    }
}

/// Reads mod-rights.
fn mod_rights_of(alloc: Global, bytes: &[u8]) -> Result<((Mode, Bytes), &[u8]), ReadError>
    ensures { Gives (λ x. (x.0, x.1.now)) result (mod_rights.part.at bytes.now) }
{
    let (text, rest) = astring_of(alloc, bytes)?;
    Ok((rights_of(alloc, text.as_slice())?, rest))
}

/// Reads an identifier and, behind a space, mod-rights.
fn id_with_rights_of(
    alloc: Global,
    bytes: &[u8],
) -> Result<((Bytes, (Mode, Bytes)), &[u8]), ReadError>
    ensures { Gives (λ x. (x.0, x.1.now)) result ((argument spaced mod_rights).part.at bytes.now) }
{
    let (id, rest) = astring_of(alloc, bytes)?;
    let rest = byte_of(b' ', rest)?;
    let (rights, rest) = mod_rights_of(alloc, rest)?;
    Ok(((id, rights), rest))
}

/// Reads what stands behind the name SETACL.
pub fn set_acl_of(
    alloc: Global,
    bytes: &[u8],
) -> Result<((Bytes, (Bytes, (Mode, Bytes))), &[u8]), ReadError>
    ensures { Gives (λ x. (x.0, x.1.now)) result (set_acl.part.at bytes.now) }
{
    let rest = byte_of(b' ', bytes)?;
    let (mailbox, rest) = astring_of(alloc, rest)?;
    let rest = byte_of(b' ', rest)?;
    let (granted, rest) = id_with_rights_of(alloc, rest)?;
    Ok(((mailbox, granted), rest))
}

/// Rights behind their sign.
#[tactic(auto, using(std::proofs::lemmas::Grind::common_steps))]
fn signed(alloc: Global, mode: Mode, rights: &Bytes) -> Result<Bytes, Memory>
    ensures { IfOk result (λ text. text ≡ signed (mode, rights.now)) }
{
    let mut text = Bytes::new(alloc);
    match mode {
        Mode::Replace => {}
        Mode::Add => text.push(b'+')?,
        Mode::Remove => text.push(b'-')?,
    }
    text.extend_from_slice(rights.as_slice())?;
    Ok(text)
}

fn put_mod_rights(alloc: Global, mode: Mode, rights: &Bytes, out: &mut Bytes) -> Result<(), Memory>
    ensures { OnOk result (out.new ≡ out.old ++ mod_rights.text (mode, rights.now)) }
{
    let text = signed(alloc, mode, rights)?;
    put_astring(text.as_slice(), out)
}

/// Prints what stands behind the name SETACL.
#[tactic(auto, using(std::proofs::lemmas::Grind::common_steps))]
pub fn put_set_acl(
    alloc: Global,
    mailbox: &Bytes,
    id: &Bytes,
    mode: Mode,
    rights: &Bytes,
    out: &mut Bytes,
) -> Result<(), Memory>
    ensures { OnOk result (out.new ≡ out.old ++ set_acl.text (mailbox.now, (id.now, (mode, rights.now)))) }
{
    out.push(b' ')?;
    put_astring(mailbox.as_slice(), out)?;
    out.push(b' ')?;
    put_astring(id.as_slice(), out)?;
    out.push(b' ')?;
    put_mod_rights(alloc, mode, rights, out)
}
