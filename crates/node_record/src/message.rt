// Messages, and rows of UIDs and flags.
ghost use Rattle.std.specs.Prelude.{◌≡◌, ◌++◌, OnOk};
ghost use Rattle.grammar.specs.Gives.{Gives};
ghost use Rattle.grammar.specs.Forms.{◌and◌};
ghost use Rattle.node_record.specs.Parts.{date, text};
ghost use Rattle.node_record.specs.Messages.{message, message_text, row, row_text};

use crate::flags::{flags_of, put_flags};
use crate::number::{number_of, put_number};
use crate::text::{date_text_of, put_text, text_of};
use grammar::{Production, ReadError};
use mail_message::{DateText, Message, Row};
use mur_base::{Bytes, Memory};
use std::alloc::Global;
use text_parts::date_named;

/// Reads a date and a body, which is copied at once.
fn dated_of(alloc: Global, bytes: &[u8]) -> Result<((DateText, Bytes), &[u8]), ReadError>
    ensures { Gives (λ x. (x.0, x.1.now)) result ((date and text).part.at bytes.now) }
{
    let (date, rest) = date_text_of(bytes)?;
    let (body, rest) = text_of(alloc, rest)?;
    Ok(((date_named(date), body), rest))
}

/// Reads a message.
pub fn message_of(alloc: Global, bytes: &[u8]) -> Result<(Message, &[u8]), ReadError>
    ensures { Gives (λ x. (x.0, x.1.now)) result (message.part.at bytes.now) }
{
    let (uid, rest) = number_of(bytes)?;
    let (flags, rest) = flags_of(alloc, rest)?;
    let ((date, body), rest) = dated_of(alloc, rest)?;
    Ok((
        Message {
            uid,
            flags,
            date,
            body,
        },
        rest,
    ))
}

/// Puts a message at the end of bytes.
#[tactic(auto, using(std::proofs::lemmas::Grind::common_steps), unfolding(crate::specs::Messages::message_text))]
pub fn put_message(message: &Message, out: &mut Bytes) -> Result<(), Memory>
    ensures { OnOk result (out.new ≡ out.old ++ message_text message.now) }
{
    put_number(message.uid, out)?;
    put_flags(&message.flags, out)?;
    put_text(message.date.as_bytes(), out)?;
    put_text(message.body.as_slice(), out)
}

/// Messages, as members of a list.
#[derive(Clone, Copy)]
pub struct MessageForm;

impl Production for MessageForm {
    type Value = Message;

    ghost form = { λ _. message };

    fn read<'a>(&self, alloc: Global, bytes: &'a [u8]) -> Result<(Message, &'a [u8]), ReadError> {
        message_of(alloc, bytes)
    }

    fn put(&self, value: &Message, out: &mut Bytes) -> Result<(), Memory> {
        put_message(value, out)
    }
}

/// Reads a row.
fn row_of(alloc: Global, bytes: &[u8]) -> Result<(Row, &[u8]), ReadError>
    ensures { Gives (λ x. (x.0, x.1.now)) result (row.part.at bytes.now) }
{
    let (uid, rest) = number_of(bytes)?;
    let (flags, rest) = flags_of(alloc, rest)?;
    Ok((Row { uid, flags }, rest))
}

/// Puts a row at the end of bytes.
#[tactic(auto, using(std::proofs::lemmas::Grind::common_steps), unfolding(crate::specs::Messages::row_text))]
fn put_row(row: &Row, out: &mut Bytes) -> Result<(), Memory>
    ensures { OnOk result (out.new ≡ out.old ++ row_text row.now) }
{
    put_number(row.uid, out)?;
    put_flags(&row.flags, out)
}

/// Rows, as members of a list.
#[derive(Clone, Copy)]
pub struct RowForm;

impl Production for RowForm {
    type Value = Row;

    ghost form = { λ _. row };

    fn read<'a>(&self, alloc: Global, bytes: &'a [u8]) -> Result<(Row, &'a [u8]), ReadError> {
        row_of(alloc, bytes)
    }

    fn put(&self, value: &Row, out: &mut Bytes) -> Result<(), Memory> {
        put_row(value, out)
    }
}
