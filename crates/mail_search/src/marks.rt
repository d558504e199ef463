// Which of many messages a key matches, key by key, so that each set of a key is brought into order once.
ghost use Rattle.std.specs.Prelude.{◌≡◌, length, map, IfOk, not, true};
ghost use Rattle.std.specs.List.{zip};
ghost use Rattle.mail_search.specs.Matching.{key_matches, all_match};
ghost use Rattle.mail_search.specs.Search.{marks, both, either, marked};

use crate::matching::key_matches;
use crate::spans::marks_of_set;
use mail_message::{Key, Summary, Uids};
use mur_base::Memory;
use std::alloc::Global;

/// For each message whether a key matches it. Each message costs what the key costs, but a set costs its order once and then a
/// step or two a message.
#[cycle(marks)]
pub fn marks_of(
    alloc: Global,
    key: &Key,
    messages: &[Summary],
    numbers: &[u32],
) -> Result<Vec<bool>, Memory>
    requires { length numbers.now ≡ length messages.now }
    ensures { IfOk result (λ made. made.items ≡ marks (key_matches key.now) (zip messages.now numbers.now)) }
{
    match key {
        Key::Uid(set) => Ok(marks_of_set(alloc, set.as_slice(), &uids_of(alloc, messages)?)?),
        Key::Numbers(set) => Ok(marks_of_set(alloc, set.as_slice(), numbers)?),
        Key::Not(key) => Ok(negated(alloc, &marks_of(alloc, key.get(), messages, numbers)?)?),
        Key::Or(one, other) => {
            let one = marks_of(alloc, one.get(), messages, numbers)?;
            let other = marks_of(alloc, other.get(), messages, numbers)?;
            Ok(either(alloc, &one, &other)?)
        }
        Key::Group(keys) => Ok(marks_of_all(alloc, keys.as_slice(), messages, numbers)?),
        _ => Ok(marks_by(alloc, key, messages, numbers)?),
    }
}

/// For each message whether all of some keys match it.
#[cycle(marks)]
pub fn marks_of_all(
    alloc: Global,
    keys: &[Key],
    messages: &[Summary],
    numbers: &[u32],
) -> Result<Vec<bool>, Memory>
    requires { length numbers.now ≡ length messages.now }
    ensures { IfOk result (λ made. made.items ≡ marks (all_match keys.now) (zip messages.now numbers.now)) }
{
    let mut made = all_marked(alloc, messages)?;
    for key in keys {
        let others = marks_of(alloc, key, messages, numbers)?;
        made = both(alloc, &made, &others)?;
    }
    Ok(made)
}

fn marks_by(
    alloc: Global,
    key: &Key,
    messages: &[Summary],
    numbers: &[u32],
) -> Result<Vec<bool>, Memory>
    requires { length numbers.now ≡ length messages.now }
    ensures { IfOk result (λ made. made.items ≡ marks (key_matches key.now) (zip messages.now numbers.now)) }
{
    let mut made = Vec::with_capacity(alloc, messages.len())?;
    for (at, message) in messages.iter().enumerate() {
        made.push(key_matches(key, message, numbers[at]))?;
    }
    Ok(made)
}

fn all_marked(alloc: Global, messages: &[Summary]) -> Result<Vec<bool>, Memory>
    ensures { IfOk result (λ made. made.items ≡ map (λ _. true) messages.now) }
{
    let mut made = Vec::with_capacity(alloc, messages.len())?;
    for _message in messages {
        made.push(true)?;
    }
    Ok(made)
}

fn negated(alloc: Global, marks: &[bool]) -> Result<Vec<bool>, Memory>
    ensures { IfOk result (λ made. made.items ≡ map not marks.now) }
{
    Ok(marks.iter().map(|mark| !*mark).collect(alloc)?)
}

fn both(alloc: Global, one: &[bool], other: &[bool]) -> Result<Vec<bool>, Memory>
    ensures { IfOk result (λ made. made.items ≡ both one.now other.now) }
{
    Ok(
        one.iter()
            .zip(other.iter())
            .map(|(one, other)| *one && *other)
            .collect(alloc)?,
    )
}

fn either(alloc: Global, one: &[bool], other: &[bool]) -> Result<Vec<bool>, Memory>
    ensures { IfOk result (λ made. made.items ≡ either one.now other.now) }
{
    Ok(
        one.iter()
            .zip(other.iter())
            .map(|(one, other)| *one || *other)
            .collect(alloc)?,
    )
}

fn uids_of(alloc: Global, messages: &[Summary]) -> Result<Vec<u32>, Memory>
    ensures { IfOk result (λ uids. uids.items ≡ map (λ message. message.uid) messages.now) }
{
    let mut uids = Vec::with_capacity(alloc, messages.len())?;
    for message in messages {
        uids.push(message.uid)?;
    }
    Ok(uids)
}

/// The UIDs of the messages that have a mark.
pub fn marked(alloc: Global, messages: &[Summary], marks: &[bool]) -> Result<Uids, Memory>
    requires { length marks.now ≡ length messages.now }
    ensures { IfOk result (λ uids. uids ≡ marked (zip messages.now marks.now)) }
{
    let mut uids = Uids::new(alloc);
    for (at, message) in messages.iter().enumerate() {
        if marks[at] {
            uids.push(message.uid)?;
        }
    }
    Ok(uids)
}
