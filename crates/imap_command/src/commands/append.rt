// APPEND (RFC 9051, 6.3.12).
ghost use Rattle.std.specs.Prelude.{◌≡◌, ◌++◌, OnOk};
ghost use Rattle.grammar.specs.Gives.{Gives};
ghost use Rattle.imap_command.specs.Append.{dated, dated_text, flagged, append_form};

use crate::flags::{flag_list_of, put_flags};
use grammar::{Only, ReadError, begins, byte_of, put_literal};
use imap_text::{astring_of, literal_of, put_astring};
use mail_message::{DateText, FlagSet};
use mur_base::{Bytes, Memory};
use std::alloc::Global;
use text_parts::{date_named, date_time_of, put_date_time};

/// A message with its date, where one is given.
pub type Dated = (Option<DateText>, Bytes);

/// Reads a message, before which a date may stand.
fn dated_of(alloc: Global, bytes: &[u8]) -> Result<(Dated, &[u8]), ReadError>
    ensures { Gives (λ x. (x.0, x.1.now)) result (dated.part.at bytes.now) }
{
    if begins(&Only(b'"'), bytes) {
        let (text, rest) = date_time_of(bytes)?;
        let rest = byte_of(b' ', rest)?;
        let (message, rest) = literal_of(alloc, rest)?;
        Ok(((Some(date_named(text)), message), rest))
    } else {
        let (message, rest) = literal_of(alloc, bytes)?;
        Ok(((None, message), rest))
    }
}

/// Reads a message, before which flags and a date may stand.
fn flagged_of(alloc: Global, bytes: &[u8]) -> Result<((FlagSet, Dated), &[u8]), ReadError>
    ensures { Gives (λ x. (x.0, x.1.now)) result (flagged.part.at bytes.now) }
{
    if begins(&Only(b'('), bytes) {
        let (flags, rest) = flag_list_of(alloc, bytes)?;
        let rest = byte_of(b' ', rest)?;
        let (message, rest) = dated_of(alloc, rest)?;
        Ok(((flags, message), rest))
    } else {
        let (message, rest) = dated_of(alloc, bytes)?;
        Ok(((FlagSet::new(alloc), message), rest))
    }
}

/// Reads what stands behind the name APPEND.
pub fn append_of(
    alloc: Global,
    bytes: &[u8],
) -> Result<((Bytes, (FlagSet, Dated)), &[u8]), ReadError>
    ensures { Gives (λ x. (x.0, x.1.now)) result (append_form.part.at bytes.now) }
{
    let rest = byte_of(b' ', bytes)?;
    let (mailbox, rest) = astring_of(alloc, rest)?;
    let rest = byte_of(b' ', rest)?;
    let (message, rest) = flagged_of(alloc, rest)?;
    Ok(((mailbox, message), rest))
}

/// Prints a message behind its date, where one is given.
#[tactic(auto, using(std::proofs::lemmas::Grind::common_steps), unfolding(crate::specs::Append::dated_text))]
fn put_dated(date: &Option<DateText>, message: &Bytes, out: &mut Bytes) -> Result<(), Memory>
    ensures { OnOk result (out.new ≡ out.old ++ dated_text (date.now, message.now)) }
{
    if let Some(date) = date {
        put_date_time(date, out)?;
        out.push(b' ')?;
    }
    put_literal(message.as_slice(), out)
}

/// Prints what stands behind the name APPEND.
#[tactic(auto, using(std::proofs::lemmas::Grind::common_steps), unfolding(crate::specs::Append::flagged_text))]
pub fn put_append(
    alloc: Global,
    mailbox: &Bytes,
    flags: &FlagSet,
    date: &Option<DateText>,
    message: &Bytes,
    out: &mut Bytes,
) -> Result<(), Memory>
    ensures { OnOk result (out.new ≡ out.old ++ append_form.text (mailbox.now, (flags.now, (date.now, message.now)))) }
{
    out.push(b' ')?;
    put_astring(mailbox.as_slice(), out)?;
    out.push(b' ')?;
    put_flags(alloc, flags, out)?;
    out.push(b' ')?;
    put_dated(date, message, out)
}
