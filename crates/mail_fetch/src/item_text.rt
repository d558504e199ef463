// The text of a fetch item.
ghost use Rattle.std.specs.Prelude.{◌≡◌, ◌++◌, decimal, IfOk, OnOk};
ghost use Rattle.mail_message.specs.FlagSets.{HasRuledKeywords};
ghost use Rattle.mail_message.specs.Literals.{IsPart};
ghost use Rattle.mail_fetch.specs.FlagText.{flags_text};
ghost use Rattle.mail_fetch.specs.Parts.{date_text, part_text, size_text, uid_text};

use crate::body::put_body;
use crate::flags::put_flags;
use mail_message::{DateText, FlagSet, Item, Message};
use mur_base::{Bytes, Memory, put_number};
use std::alloc::Global;

/// What a fetch item gives of a message: its name, a space and its value.
pub type PartBytes = Bytes;

/// What an item gives of a message, as a FETCH response has it between its parentheses (RFC 9051, 7.5.2): a part of a line, in
/// which a line ends nowhere but within a literal's octets. A body is copied once.
pub fn part(alloc: Global, item: &Item, message: &Message) -> Result<PartBytes, Memory>
    ensures text { IfOk result (λ text. text ≡ part_text item.now message.now) }
    ensures part { HasRuledKeywords message.now.flags → IfOk result IsPart }
{
    let mut text = Bytes::new(alloc);
    put_part(&mut text, item, message)?;
    Ok(text)
}

/// What `UID` gives of a message, where its body isn't there.
pub fn uid_part(alloc: Global, uid: u32) -> Result<PartBytes, Memory>
    ensures text { IfOk result (λ text. text ≡ uid_text uid) }
    ensures part { IfOk result IsPart }
{
    let mut text = Bytes::new(alloc);
    put_uid(&mut text, uid)?;
    Ok(text)
}

/// What `FLAGS` gives of a message, where its body isn't there.
pub fn flags_part(alloc: Global, flags: &FlagSet) -> Result<PartBytes, Memory>
    ensures text { IfOk result (λ text. text ≡ flags_text flags.now) }
    ensures part { HasRuledKeywords flags.now → IfOk result IsPart }
{
    let mut text = Bytes::new(alloc);
    put_flags(&mut text, flags)?;
    Ok(text)
}

/// What `INTERNALDATE` gives of a message, where its body isn't there.
pub fn date_part(alloc: Global, date: DateText) -> Result<PartBytes, Memory>
    ensures text { IfOk result (λ text. text ≡ date_text date) }
    ensures part { IfOk result IsPart }
{
    let mut text = Bytes::new(alloc);
    put_date(&mut text, date.as_bytes())?;
    Ok(text)
}

/// What `RFC822.SIZE` gives of a message, where its body isn't there.
pub fn size_part(alloc: Global, size: u64) -> Result<PartBytes, Memory>
    ensures text { IfOk result (λ text. text ≡ size_text size) }
    ensures part { IfOk result IsPart }
{
    let mut text = Bytes::new(alloc);
    put_size(&mut text, size)?;
    Ok(text)
}

fn put_part(text: &mut Bytes, item: &Item, message: &Message) -> Result<(), Memory>
    ensures text { OnOk result (text.new ≡ text.old ++ part_text item.now message.now) }
    ensures part { HasRuledKeywords message.now.flags → IsPart (part_text item.now message.now) }
{
    match item {
        Item::Flags => put_flags(text, &message.flags),
        Item::Uid => put_uid(text, message.uid),
        Item::InternalDate => put_date(text, message.date.as_bytes()),
        Item::Size => put_size(text, message.body.len() as u64),
        Item::Body(partial) | Item::BodyPeek(partial) => {
            put_body(text, *partial, message.body.as_slice())
        }
    }
}

fn put_uid(text: &mut Bytes, uid: u32) -> Result<(), Memory>
    ensures { OnOk result (text.new ≡ text.old ++ uid_text uid) }
{
    put_counted(text, b"UID ", u64::from(uid))
}

fn put_size(text: &mut Bytes, size: u64) -> Result<(), Memory>
    ensures { OnOk result (text.new ≡ text.old ++ size_text size) }
{
    put_counted(text, b"RFC822.SIZE ", size)
}

fn put_counted(text: &mut Bytes, name: &[u8], number: u64) -> Result<(), Memory>
    ensures { OnOk result (text.new ≡ text.old ++ (name.now ++ decimal number)) }
{
    text.extend_from_slice(name)?;
    put_number(number, text)
}

fn put_date(text: &mut Bytes, date: &[u8]) -> Result<(), Memory>
    ensures { OnOk result (text.new ≡ text.old ++ date_text date.now) }
{
    text.extend_from_slice(b"INTERNALDATE \"")?;
    text.extend_from_slice(date)?;
    text.push(b'"')
}
