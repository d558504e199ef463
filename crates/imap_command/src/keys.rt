// Search keys (RFC 9051, 6.4.4).
ghost use Rattle.std.specs.Prelude.{◌≡◌, ◌++◌, OnOk, codes};
ghost use Rattle.mur_base.specs.Ascii.{space};
ghost use Rattle.grammar.specs.Forms.{preceded, next_value, list_text};
ghost use Rattle.grammar.specs.Gives.{Finds, Gives};
ghost use Rattle.imap_command.specs.Dates.{date};
ghost use Rattle.imap_command.specs.Keys.{keyword, size_form, key_text, behind_flat, flat_key, behind_key, deep_key, group, key};
ghost use Rattle.imap_command.specs.Keys.{more_keys, keys, separator};
ghost use Rattle.imap_command.specs.Sets.{set as set_form};

use crate::commands::fetch::NUMBER64_MOST;
use crate::dates::{date_of, put_date};
use crate::flags::lone_keyword_of;
use crate::sets::{SetStart, put_set, set_of};
use grammar::{Only, ReadError, Stop, begins, byte_of, number_of, put_decimal, table_of};
use imap_text::put_flag;
use mail_message::{Day, FlagName, Key, Keys, SetParts};
use mur_base::{Boxed, Bytes, Memory};
use std::alloc::Global;

/// The name of a key that holds no key.
#[derive(Clone, Copy)]
pub enum FlatName {
    All,
    Answered,
    Before,
    Deleted,
    Draft,
    Flagged,
    Keyword,
    Larger,
    On,
    Seen,
    Since,
    Smaller,
    Uid,
    Unanswered,
    Undeleted,
    Undraft,
    Unflagged,
    Unkeyword,
    Unseen,
}

/// The name of a key.
#[derive(Clone, Copy)]
pub enum KeyName {
    Flat(FlatName),
    Not,
    Or,
}

/// The names of the keys that hold no key.
const FLAT_ROWS: [(&[u8], FlatName); 19] = [
    (b"ALL", FlatName::All),
    (b"ANSWERED", FlatName::Answered),
    (b"DELETED", FlatName::Deleted),
    (b"DRAFT", FlatName::Draft),
    (b"FLAGGED", FlatName::Flagged),
    (b"SEEN", FlatName::Seen),
    (b"UNANSWERED", FlatName::Unanswered),
    (b"UNDELETED", FlatName::Undeleted),
    (b"UNDRAFT", FlatName::Undraft),
    (b"UNFLAGGED", FlatName::Unflagged),
    (b"UNSEEN", FlatName::Unseen),
    (b"KEYWORD", FlatName::Keyword),
    (b"UNKEYWORD", FlatName::Unkeyword),
    (b"LARGER", FlatName::Larger),
    (b"SMALLER", FlatName::Smaller),
    (b"BEFORE", FlatName::Before),
    (b"ON", FlatName::On),
    (b"SINCE", FlatName::Since),
    (b"UID", FlatName::Uid),
];

/// The names of all keys.
const KEY_ROWS: [(&[u8], KeyName); 21] = [
    (b"NOT", KeyName::Not),
    (b"OR", KeyName::Or),
    (b"ALL", KeyName::Flat(FlatName::All)),
    (b"ANSWERED", KeyName::Flat(FlatName::Answered)),
    (b"DELETED", KeyName::Flat(FlatName::Deleted)),
    (b"DRAFT", KeyName::Flat(FlatName::Draft)),
    (b"FLAGGED", KeyName::Flat(FlatName::Flagged)),
    (b"SEEN", KeyName::Flat(FlatName::Seen)),
    (b"UNANSWERED", KeyName::Flat(FlatName::Unanswered)),
    (b"UNDELETED", KeyName::Flat(FlatName::Undeleted)),
    (b"UNDRAFT", KeyName::Flat(FlatName::Undraft)),
    (b"UNFLAGGED", KeyName::Flat(FlatName::Unflagged)),
    (b"UNSEEN", KeyName::Flat(FlatName::Unseen)),
    (b"KEYWORD", KeyName::Flat(FlatName::Keyword)),
    (b"UNKEYWORD", KeyName::Flat(FlatName::Unkeyword)),
    (b"LARGER", KeyName::Flat(FlatName::Larger)),
    (b"SMALLER", KeyName::Flat(FlatName::Smaller)),
    (b"BEFORE", KeyName::Flat(FlatName::Before)),
    (b"ON", KeyName::Flat(FlatName::On)),
    (b"SINCE", KeyName::Flat(FlatName::Since)),
    (b"UID", KeyName::Flat(FlatName::Uid)),
];

fn spaced_keyword_of(bytes: &[u8]) -> Result<(FlagName, &[u8]), Stop>
    ensures { Finds (λ x. (x.0, x.1.now)) result ((preceded space keyword).part.at bytes.now) }
{
    let rest = byte_of(b' ', bytes)?;
    let (keyword, rest) = lone_keyword_of(rest)?;
    Ok((FlagName::Keyword(keyword), rest))
}

fn spaced_size_of(bytes: &[u8]) -> Result<(u64, &[u8]), Stop>
    ensures { Finds (λ x. (x.0, x.1.now)) result ((preceded space size_form).part.at bytes.now) }
{
    let rest = byte_of(b' ', bytes)?;
    number_of(true, NUMBER64_MOST, rest)
}

fn spaced_date_of(bytes: &[u8]) -> Result<(Day, &[u8]), Stop>
    ensures { Finds (λ x. (x.0, x.1.now)) result ((preceded space date).part.at bytes.now) }
{
    let rest = byte_of(b' ', bytes)?;
    date_of(rest)
}

fn spaced_set_of(alloc: Global, bytes: &[u8]) -> Result<(SetParts, &[u8]), ReadError>
    ensures { Gives (λ x. (x.0, x.1.now)) result ((preceded space set_form).part.at bytes.now) }
{
    let rest = byte_of(b' ', bytes)?;
    set_of(alloc, rest)
}

#[tactic(auto, unfolding(crate::specs::Keys::behind_flat))]
fn keyword_key_of(bytes: &[u8]) -> Result<(Key, &[u8]), ReadError>
    ensures { Gives (λ x. (x.0, x.1.now)) result ((behind_flat FlatName.Keyword).at bytes.now) }
{
    let (flag, rest) = spaced_keyword_of(bytes)?;
    Ok((Key::Keyword(flag), rest))
}

#[tactic(auto, unfolding(crate::specs::Keys::behind_flat))]
fn unkeyword_key_of(bytes: &[u8]) -> Result<(Key, &[u8]), ReadError>
    ensures { Gives (λ x. (x.0, x.1.now)) result ((behind_flat FlatName.Unkeyword).at bytes.now) }
{
    let (flag, rest) = spaced_keyword_of(bytes)?;
    Ok((Key::Unkeyword(flag), rest))
}

#[tactic(auto, unfolding(crate::specs::Keys::behind_flat))]
fn larger_key_of(bytes: &[u8]) -> Result<(Key, &[u8]), ReadError>
    ensures { Gives (λ x. (x.0, x.1.now)) result ((behind_flat FlatName.Larger).at bytes.now) }
{
    let (size, rest) = spaced_size_of(bytes)?;
    Ok((Key::Larger(size), rest))
}

#[tactic(auto, unfolding(crate::specs::Keys::behind_flat))]
fn smaller_key_of(bytes: &[u8]) -> Result<(Key, &[u8]), ReadError>
    ensures { Gives (λ x. (x.0, x.1.now)) result ((behind_flat FlatName.Smaller).at bytes.now) }
{
    let (size, rest) = spaced_size_of(bytes)?;
    Ok((Key::Smaller(size), rest))
}

#[tactic(auto, unfolding(crate::specs::Keys::behind_flat))]
fn before_key_of(bytes: &[u8]) -> Result<(Key, &[u8]), ReadError>
    ensures { Gives (λ x. (x.0, x.1.now)) result ((behind_flat FlatName.Before).at bytes.now) }
{
    let (day, rest) = spaced_date_of(bytes)?;
    Ok((Key::Before(day), rest))
}

#[tactic(auto, unfolding(crate::specs::Keys::behind_flat))]
fn on_key_of(bytes: &[u8]) -> Result<(Key, &[u8]), ReadError>
    ensures { Gives (λ x. (x.0, x.1.now)) result ((behind_flat FlatName.On).at bytes.now) }
{
    let (day, rest) = spaced_date_of(bytes)?;
    Ok((Key::On(day), rest))
}

#[tactic(auto, unfolding(crate::specs::Keys::behind_flat))]
fn since_key_of(bytes: &[u8]) -> Result<(Key, &[u8]), ReadError>
    ensures { Gives (λ x. (x.0, x.1.now)) result ((behind_flat FlatName.Since).at bytes.now) }
{
    let (day, rest) = spaced_date_of(bytes)?;
    Ok((Key::Since(day), rest))
}

#[tactic(auto, unfolding(crate::specs::Keys::behind_flat))]
fn uid_key_of(alloc: Global, bytes: &[u8]) -> Result<(Key, &[u8]), ReadError>
    ensures { Gives (λ x. (x.0, x.1.now)) result ((behind_flat FlatName.Uid).at bytes.now) }
{
    let (set, rest) = spaced_set_of(alloc, bytes)?;
    Ok((Key::Uid(set), rest))
}

/// Reads what stands behind the name of a key that holds no key: its argument, if it has one.
#[tactic(auto, unfolding(crate::specs::Keys::behind_flat))]
fn behind_flat_of(alloc: Global, name: FlatName, bytes: &[u8]) -> Result<(Key, &[u8]), ReadError>
    ensures { Gives (λ x. (x.0, x.1.now)) result ((behind_flat name).at bytes.now) }
{
    match name {
        FlatName::All => Ok((Key::All, bytes)),
        FlatName::Answered => Ok((Key::Answered, bytes)),
        FlatName::Deleted => Ok((Key::Deleted, bytes)),
        FlatName::Draft => Ok((Key::Draft, bytes)),
        FlatName::Flagged => Ok((Key::Flagged, bytes)),
        FlatName::Seen => Ok((Key::Seen, bytes)),
        FlatName::Unanswered => Ok((Key::Unanswered, bytes)),
        FlatName::Undeleted => Ok((Key::Undeleted, bytes)),
        FlatName::Undraft => Ok((Key::Undraft, bytes)),
        FlatName::Unflagged => Ok((Key::Unflagged, bytes)),
        FlatName::Unseen => Ok((Key::Unseen, bytes)),
        FlatName::Keyword => keyword_key_of(bytes),
        FlatName::Unkeyword => unkeyword_key_of(bytes),
        FlatName::Larger => larger_key_of(bytes),
        FlatName::Smaller => smaller_key_of(bytes),
        FlatName::Before => before_key_of(bytes),
        FlatName::On => on_key_of(bytes),
        FlatName::Since => since_key_of(bytes),
        FlatName::Uid => uid_key_of(alloc, bytes),
    }
}

/// Reads a key that holds no key.
#[tactic(auto, unfolding(crate::specs::Keys::flat_key))]
fn flat_key_of(alloc: Global, bytes: &[u8]) -> Result<(Key, &[u8]), ReadError>
    ensures { Gives (λ x. (x.0, x.1.now)) result (flat_key.at bytes.now) }
{
    if begins(&SetStart, bytes) {
        let (set, rest) = set_of(alloc, bytes)?;
        Ok((Key::Numbers(set), rest))
    } else {
        let (name, rest) = table_of(FlatName::All, &FLAT_ROWS, bytes)?;
        behind_flat_of(alloc, name, rest)
    }
}

/// Reads a key in which keys nest at most so deep. The recursion is no deeper.
#[cycle(reading)]
#[tactic(auto, using(crate::proofs::KeySteps::key_flat, crate::proofs::KeySteps::key_deep))]
fn key_of(alloc: Global, depth: usize, bytes: &[u8]) -> Result<(Key, &[u8]), ReadError>
    ensures { Gives (λ x. (x.0, x.1.now)) result ((key depth).part.at bytes.now) }
{
    if depth == 0 {
        flat_key_of(alloc, bytes)
    } else {
        deep_key_of(alloc, depth - 1, bytes)
    }
}

/// Reads a key that may hold keys in which keys nest at most so deep.
#[cycle(reading)]
#[tactic(auto, unfolding(crate::specs::Keys::deep_key))]
fn deep_key_of(alloc: Global, below: usize, bytes: &[u8]) -> Result<(Key, &[u8]), ReadError>
    ensures { Gives (λ x. (x.0, x.1.now)) result ((deep_key (key below)).at bytes.now) }
{
    if begins(&Only(b'('), bytes) {
        let (keys, rest) = group_of(alloc, below, bytes)?;
        Ok((Key::Group(keys), rest))
    } else if begins(&SetStart, bytes) {
        let (set, rest) = set_of(alloc, bytes)?;
        Ok((Key::Numbers(set), rest))
    } else {
        let (name, rest) = table_of(KeyName::Not, &KEY_ROWS, bytes)?;
        behind_key_of(alloc, below, name, rest)
    }
}

/// Reads what stands behind the name of a key.
#[cycle(reading)]
#[tactic(auto, unfolding(crate::specs::Keys::behind_key))]
fn behind_key_of(
    alloc: Global,
    below: usize,
    name: KeyName,
    bytes: &[u8],
) -> Result<(Key, &[u8]), ReadError>
    ensures { Gives (λ x. (x.0, x.1.now)) result ((behind_key (key below) name).at bytes.now) }
{
    match name {
        KeyName::Not => {
            let rest = byte_of(b' ', bytes)?;
            let (one, rest) = key_of(alloc, below, rest)?;
            Ok((Key::Not(Boxed::new(alloc, one)?), rest))
        }
        KeyName::Or => {
            let rest = byte_of(b' ', bytes)?;
            let (one, rest) = key_of(alloc, below, rest)?;
            let rest = byte_of(b' ', rest)?;
            let (other, rest) = key_of(alloc, below, rest)?;
            let one = Boxed::new(alloc, one)?;
            let other = Boxed::new(alloc, other)?;
            Ok((Key::Or(one, other), rest))
        }
        KeyName::Flat(name) => behind_flat_of(alloc, name, bytes),
    }
}

/// Reads keys in parentheses.
#[cycle(reading)]
fn group_of(alloc: Global, depth: usize, bytes: &[u8]) -> Result<(Keys, &[u8]), ReadError>
    ensures { Gives (λ x. (x.0, x.1.now)) result ((group (key depth)).part.at bytes.now) }
{
    let rest = byte_of(b'(', bytes)?;
    let (keys, rest) = keys_of(alloc, depth, rest)?;
    let rest = byte_of(b')', rest)?;
    Ok((keys, rest))
}

/// Reads keys, a space between any two.
#[cycle(reading)]
pub fn keys_of(alloc: Global, depth: usize, bytes: &[u8]) -> Result<(Keys, &[u8]), ReadError>
    ensures { Gives (λ x. (x.0, x.1.now)) result ((keys depth).part.at bytes.now) }
{
    let mut list = Keys::new(alloc);
    let (first, rest) = key_of(alloc, depth, bytes)?;
    list.push(first)?;
    more_keys_of(alloc, depth, list, rest)
}

/// Reads more keys, a space before each.
#[cycle(reading)]
fn more_keys_of(
    alloc: Global,
    depth: usize,
    list: Keys,
    bytes: &[u8],
) -> Result<(Keys, &[u8]), ReadError>
    ensures { Gives (λ x. (x.0, x.1.now)) result ((more_keys depth list).at bytes.now) }
{
    let mut list = list;
    let mut rest = bytes;
    for _ in 0..bytes.len() {
        if !begins(&Only(b' '), rest) {
            return Ok((list, rest));
        }
        (list, rest) = next_key_of(alloc, depth, list, rest)?;
    }
    Ok((list, rest))
}

/// Reads one key more behind a space.
#[cycle(reading)]
fn next_key_of(
    alloc: Global,
    depth: usize,
    list: Keys,
    bytes: &[u8],
) -> Result<(Keys, &[u8]), ReadError>
    ensures { Gives (λ x. (x.0, x.1.now)) result ((next_value space (key depth).part list).at bytes.now) }
{
    let mut list = list;
    let rest = byte_of(b' ', bytes)?;
    let (next, rest) = key_of(alloc, depth, rest)?;
    list.push(next)?;
    Ok((list, rest))
}

/// Prints the name of a key, and a flag behind a space.
#[tactic(auto, using(std::proofs::lemmas::Grind::common_steps))]
fn put_keyword(name: &[u8], flag: &FlagName, out: &mut Bytes) -> Result<(), Memory>
    ensures { OnOk result (out.new ≡ out.old ++ (name.now ++ (preceded space keyword).text flag.now)) }
{
    out.extend_from_slice(name)?;
    out.push(b' ')?;
    put_flag(flag, out)
}

#[tactic(auto, using(std::proofs::lemmas::Grind::common_steps))]
fn put_size(name: &[u8], size: u64, out: &mut Bytes) -> Result<(), Memory>
    ensures { OnOk result (out.new ≡ out.old ++ (name.now ++ (preceded space size_form).text size)) }
{
    out.extend_from_slice(name)?;
    out.push(b' ')?;
    put_decimal(size, out)
}

#[tactic(auto, using(std::proofs::lemmas::Grind::common_steps))]
fn put_day(name: &[u8], day: Day, out: &mut Bytes) -> Result<(), Memory>
    ensures { OnOk result (out.new ≡ out.old ++ (name.now ++ (preceded space date).text day)) }
{
    out.extend_from_slice(name)?;
    out.push(b' ')?;
    put_date(day, out)
}

#[tactic(auto, using(std::proofs::lemmas::Grind::common_steps))]
fn put_uids(set: &SetParts, out: &mut Bytes) -> Result<(), Memory>
    ensures { OnOk result (out.new ≡ out.old ++ (codes "UID" ++ (preceded space set_form).text set.now)) }
{
    out.extend_from_slice(b"UID ")?;
    put_set(set, out)
}

/// Prints a key. The recursion is no deeper than keys nest.
#[cycle(printing)]
#[tactic(auto, unfolding(crate::specs::Keys::key_text))]
fn put_key(key: &Key, out: &mut Bytes) -> Result<(), Memory>
    ensures { OnOk result (out.new ≡ out.old ++ key_text key.now) }
{
    match key {
        Key::All => out.extend_from_slice(b"ALL"),
        Key::Answered => out.extend_from_slice(b"ANSWERED"),
        Key::Deleted => out.extend_from_slice(b"DELETED"),
        Key::Draft => out.extend_from_slice(b"DRAFT"),
        Key::Flagged => out.extend_from_slice(b"FLAGGED"),
        Key::Seen => out.extend_from_slice(b"SEEN"),
        Key::Unanswered => out.extend_from_slice(b"UNANSWERED"),
        Key::Undeleted => out.extend_from_slice(b"UNDELETED"),
        Key::Undraft => out.extend_from_slice(b"UNDRAFT"),
        Key::Unflagged => out.extend_from_slice(b"UNFLAGGED"),
        Key::Unseen => out.extend_from_slice(b"UNSEEN"),
        Key::Keyword(flag) => put_keyword(b"KEYWORD", flag, out),
        Key::Unkeyword(flag) => put_keyword(b"UNKEYWORD", flag, out),
        Key::Larger(size) => put_size(b"LARGER", *size, out),
        Key::Smaller(size) => put_size(b"SMALLER", *size, out),
        Key::Before(day) => put_day(b"BEFORE", *day, out),
        Key::On(day) => put_day(b"ON", *day, out),
        Key::Since(day) => put_day(b"SINCE", *day, out),
        Key::Uid(set) => put_uids(set, out),
        Key::Numbers(set) => put_set(set, out),
        Key::Not(key) => {
            out.extend_from_slice(b"NOT ")?;
            put_key(key.get(), out)
        }
        Key::Or(one, other) => {
            out.extend_from_slice(b"OR ")?;
            put_key(one.get(), out)?;
            out.push(b' ')?;
            put_key(other.get(), out)
        }
        Key::Group(keys) => {
            out.push(b'(')?;
            put_keys(keys.as_slice(), out)?;
            out.push(b')')
        }
    }
}

/// Prints a space, unless it would stand first.
#[tactic(auto, unfolding(crate::specs::Keys::separator))]
fn put_separator(at: usize, out: &mut Bytes) -> Result<(), Memory>
    ensures { OnOk result (out.new ≡ out.old ++ separator at) }
{
    if at == 0 { Ok(()) } else { out.push(b' ') }
}

/// Prints keys, a space between any two.
#[cycle(printing)]
pub fn put_keys(keys: &[Key], out: &mut Bytes) -> Result<(), Memory>
    ensures { OnOk result (out.new ≡ out.old ++ list_text space key_text keys.now) }
{
    for (i, key) in keys.iter().enumerate() {
        put_separator(i, out)?;
        put_key(key, out)?;
    }
    Ok(())
}
