// The keys of a SEARCH at a view (RFC 9051, 6.4.4).
ghost use Rattle.std.specs.Prelude.{◌≡◌, IfOk};
ghost use Rattle.mur_model.specs.Keys.{has_key_numbers, have_all_numbers, key_at, keys_at};

use crate::named_rows::{has_all_numbers, set_at};
use mail_message::{Key, Keys};
use mur_base::{Boxed, Copied, Memory};
use std::alloc::Global;

/// Whether each sequence number in a key is that of a message, of so many. It goes no deeper than keys nest.
#[cycle(numbers)]
fn has_key_numbers(count: usize, key: &Key) -> bool
    ensures { result ≡ has_key_numbers count key.now }
{
    match key {
        Key::Numbers(set) => has_all_numbers(count, set),
        Key::Not(key) => has_key_numbers(count, key.get()),
        Key::Or(one, other) => {
            has_key_numbers(count, one.get()) && has_key_numbers(count, other.get())
        }
        Key::Group(keys) => have_all_numbers(count, keys.as_slice()),
        _ => true,
    }
}

/// Whether each sequence number in some keys is that of a message, of so many.
#[cycle(numbers)]
pub fn have_all_numbers(count: usize, keys: &[Key]) -> bool
    ensures { result ≡ have_all_numbers count keys.now }
{
    for key in keys {
        if !has_key_numbers(count, key) {
            return false;
        }
    }
    true
}

/// A key where so many messages are in a view and its last has this UID: these stand in the place of `*`.
#[cycle(places)]
fn key_at(alloc: Global, count: u32, last: u32, key: &Key) -> Result<Key, Memory>
    ensures { IfOk result (λ made. made ≡ key_at count last key.now) }
{
    match key {
        Key::All => Ok(Key::All),
        Key::Answered => Ok(Key::Answered),
        Key::Deleted => Ok(Key::Deleted),
        Key::Draft => Ok(Key::Draft),
        Key::Flagged => Ok(Key::Flagged),
        Key::Seen => Ok(Key::Seen),
        Key::Unanswered => Ok(Key::Unanswered),
        Key::Undeleted => Ok(Key::Undeleted),
        Key::Undraft => Ok(Key::Undraft),
        Key::Unflagged => Ok(Key::Unflagged),
        Key::Unseen => Ok(Key::Unseen),
        Key::Keyword(flag) => Ok(Key::Keyword(flag.copy(alloc)?)),
        Key::Unkeyword(flag) => Ok(Key::Unkeyword(flag.copy(alloc)?)),
        Key::Larger(size) => Ok(Key::Larger(*size)),
        Key::Smaller(size) => Ok(Key::Smaller(*size)),
        Key::Before(day) => Ok(Key::Before(*day)),
        Key::On(day) => Ok(Key::On(*day)),
        Key::Since(day) => Ok(Key::Since(*day)),
        Key::Numbers(set) => Ok(Key::Numbers(set_at(alloc, count, set)?)),
        Key::Uid(set) => Ok(Key::Uid(set_at(alloc, last, set)?)),
        Key::Not(key) => Ok(Key::Not(Boxed::new(alloc, key_at(alloc, count, last, key.get())?)?)),
        Key::Or(one, other) => {
            let one = Boxed::new(alloc, key_at(alloc, count, last, one.get())?)?;
            let other = Boxed::new(alloc, key_at(alloc, count, last, other.get())?)?;
            Ok(Key::Or(one, other))
        }
        Key::Group(keys) => Ok(Key::Group(keys_at(alloc, count, last, keys.as_slice())?)),
    }
}

/// The keys of a SEARCH where so many messages are in a view and its last has this UID.
#[cycle(places)]
pub fn keys_at(alloc: Global, count: u32, last: u32, keys: &[Key]) -> Result<Keys, Memory>
    ensures { IfOk result (λ made. made ≡ keys_at count last keys.now) }
{
    let mut made = Keys::new(alloc);
    for key in keys {
        made.push(key_at(alloc, count, last, key)?)?;
    }
    Ok(made)
}
