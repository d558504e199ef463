// STATUS (RFC 9051, 6.3.11).
ghost use Rattle.std.specs.Prelude.{◌≡◌, ◌++◌, OnOk};
ghost use Rattle.grammar.specs.Gives.{Gives};
ghost use Rattle.imap_command.specs.Status.{status_items, status_form};

use grammar::{ReadError, byte_of, put_several, several_of};
use imap_text::{StatusItemForm, astring_of, put_astring};
use imap_types::StatusItems;
use mur_base::{Bytes, Memory};
use std::alloc::Global;

/// Reads the items of a STATUS.
fn status_items_of(alloc: Global, bytes: &[u8]) -> Result<(StatusItems, &[u8]), ReadError>
    ensures { Gives (λ x. (x.0, x.1.now)) result (status_items.part.at bytes.now) }
{
    let rest = byte_of(b'(', bytes)?;
    let (items, rest) = several_of(alloc, b' ', &StatusItemForm, rest)?;
    let rest = byte_of(b')', rest)?;
    Ok((items, rest))
}

/// Prints the items of a STATUS.
#[tactic(auto, using(std::proofs::lemmas::Grind::common_steps))]
fn put_status_items(items: &StatusItems, out: &mut Bytes) -> Result<(), Memory>
    ensures { OnOk result (out.new ≡ out.old ++ status_items.text items.now) }
{
    out.push(b'(')?;
    put_several(b' ', &StatusItemForm, items.as_slice(), out)?;
    out.push(b')')
}

/// Reads what stands behind the name STATUS.
pub fn status_of(alloc: Global, bytes: &[u8]) -> Result<((Bytes, StatusItems), &[u8]), ReadError>
    ensures { Gives (λ x. (x.0, x.1.now)) result (status_form.part.at bytes.now) }
{
    let rest = byte_of(b' ', bytes)?;
    let (mailbox, rest) = astring_of(alloc, rest)?;
    let rest = byte_of(b' ', rest)?;
    let (items, rest) = status_items_of(alloc, rest)?;
    Ok(((mailbox, items), rest))
}

/// Prints what stands behind the name STATUS.
#[tactic(auto, using(std::proofs::lemmas::Grind::common_steps))]
pub fn put_status(mailbox: &Bytes, items: &StatusItems, out: &mut Bytes) -> Result<(), Memory>
    ensures { OnOk result (out.new ≡ out.old ++ status_form.text (mailbox.now, items.now)) }
{
    out.push(b' ')?;
    put_astring(mailbox.as_slice(), out)?;
    out.push(b' ')?;
    put_status_items(items, out)
}
