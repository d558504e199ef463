// Searches and parts of messages, for keys and numbers that no client can spell.
ghost use Rattle.std.specs.Prelude.{◌≡◌, IfOk};

use case_base::{Fault, put_field, put_value, wide_number_of};
use mail_fetch::part;
use mail_message::{FlagSet, Item, Key, Keys, Message, Partial, Summaries, Uids, date};
use mail_search::search;
use mur_base::{Boxed, Bytes, Memory};
use std::alloc::Global;

/// A message without flags.
pub fn message(alloc: Global, uid: u32, body: Bytes) -> Result<Message, Fault>
    ensures { IfOk result (λ message. message.uid ≡ uid) }
{
    match date(b"17-Jul-1996 02:44:25 -0700") {
        Some(date) => Ok(Message {
            uid,
            flags: FlagSet::new(alloc),
            date,
            body,
        }),
        None => Err(Fault::Unreadable("no date")),
    }
}

/// The message of UID 5 and five bytes.
fn hello(alloc: Global) -> Result<Message, Fault> {
    message(alloc, 5, Bytes::from_slice(alloc, b"hello")?)
}

/// Prints a part of the body `hello`: so many bytes from a place on.
pub fn put_part(alloc: Global, from: &str, count: &str, out: &mut Bytes) -> Result<(), Fault> {
    let item = Item::BodyPeek(Partial::new(wide_number_of(from)?, wide_number_of(count)?));
    let message = hello(alloc)?;
    Ok(put_part_of(alloc, &item, &message, out)?)
}

fn put_part_of(
    alloc: Global,
    item: &Item,
    message: &Message,
    out: &mut Bytes,
) -> Result<(), Memory> {
    put_field(part(alloc, item, message)?.as_slice(), out)
}

/// Prints the UIDs of the messages that a key, or no key, finds in a view of one message: number 1, UID 5, five bytes.
pub fn put_found(alloc: Global, key: &str, out: &mut Bytes) -> Result<(), Fault> {
    let keys = keys_of(alloc, key)?;
    put_found_by(alloc, &keys, out)
}

fn put_found_by(alloc: Global, keys: &Keys, out: &mut Bytes) -> Result<(), Fault> {
    let mut messages = Summaries::new(alloc);
    messages.push(hello(alloc)?.summary(alloc)?)?;
    put_found_in(alloc, keys, &messages, out)
}

fn put_found_in(
    alloc: Global,
    keys: &Keys,
    messages: &Summaries,
    out: &mut Bytes,
) -> Result<(), Fault> {
    let mut numbers = Uids::new(alloc);
    numbers.push(1)?;
    if numbers.len() != messages.len() {
        return Err(Fault::Unreadable("a message without a number"));
    }
    let found = search(alloc, keys, messages, &numbers)?;
    Ok(put_value(alloc, &found.as_slice(), out)?)
}

fn keys_of(alloc: Global, text: &str) -> Result<Keys, Fault> {
    let mut keys = Keys::new(alloc);
    if !text.is_empty() {
        keys.push(key_of(alloc, text)?)?;
    }
    Ok(keys)
}

/// The key that a text writes: an empty group, or a size of 64 bits.
fn key_of(alloc: Global, text: &str) -> Result<Key, Fault> {
    match text.split_once(' ') {
        None => Ok(Key::Group(Keys::new(alloc))),
        Some(("LARGER", size)) => Ok(Key::Larger(wide_number_of(size)?)),
        Some(("SMALLER", size)) => Ok(Key::Smaller(wide_number_of(size)?)),
        Some(_) => Ok(Key::Not(Boxed::new(alloc, Key::Group(Keys::new(alloc)))?)),
    }
}
