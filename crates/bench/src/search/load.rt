// What is searched for.
use crate::fault::Fault;
use mail_message::{Day, Key, SetEnd, SetPart, SetParts};
use mur_base::{Boxed, Memory};
use std::alloc::Global;

/// A search that is timed. Each of those of sets finds every second message.
#[derive(Clone, Copy)]
pub enum Load {
    Flagged,
    Day,
    OneRange,
    Ranges,
    MixedRanges,
    OneUidRange,
    UidRanges,
    NotOr,
}

pub static LOADS: [Load; 8] = [
    Load::Flagged,
    Load::Day,
    Load::OneRange,
    Load::Ranges,
    Load::MixedRanges,
    Load::OneUidRange,
    Load::UidRanges,
    Load::NotOr,
];

impl Load {
    pub fn name(self) -> &'static str {
        match self {
            Load::Flagged => "FLAGGED",
            Load::Day => "ON a day",
            Load::OneRange => "a set of 1 range",
            Load::Ranges => "a set of 1000 ranges",
            Load::MixedRanges => "a set of 1000 ranges in mixed order",
            Load::OneUidRange => "UID and a set of 1 range",
            Load::UidRanges => "UID and a set of 1000 ranges",
            Load::NotOr => "NOT OR of three",
        }
    }

    pub fn key(self, alloc: Global) -> Result<Key, Fault> {
        match self {
            Load::Flagged => Ok(Key::Flagged),
            Load::Day => on_a_day(),
            Load::OneRange | Load::Ranges | Load::MixedRanges => Ok(Key::Numbers(self.set(alloc)?)),
            Load::OneUidRange | Load::UidRanges => Ok(Key::Uid(self.set(alloc)?)),
            Load::NotOr => Ok(not_or(alloc)?),
        }
    }

    fn set(self, alloc: Global) -> Result<SetParts, Memory> {
        match self {
            Load::OneRange | Load::OneUidRange => one_range(alloc),
            Load::MixedRanges => ranges(alloc, 379),
            _ => ranges(alloc, 1),
        }
    }
}

fn on_a_day() -> Result<Key, Fault> {
    match Day::new(17, 7, 2026) {
        Some(day) => Ok(Key::On(day)),
        None => Err(Fault::Date),
    }
}

/// The first half of all messages.
fn one_range(alloc: Global) -> Result<SetParts, Memory> {
    let mut set = SetParts::new(alloc);
    set.push(SetPart::Range(SetEnd::Number(1), SetEnd::Number(10_000)))?;
    Ok(set)
}

/// Ten of each twenty messages; a step other than 1 mixes the ranges.
fn ranges(alloc: Global, step: u32) -> Result<SetParts, Memory> {
    let mut set = SetParts::new(alloc);
    let mut place: u32 = 0;
    for _ in 0..1_000 {
        let first = (place % 1_000) * 20 + 1;
        set.push(SetPart::Range(SetEnd::Number(first), SetEnd::Number(first + 9)))?;
        place = place.wrapping_add(step);
    }
    Ok(set)
}

/// `NOT OR FLAGGED OR SEEN LARGER 1000`
fn not_or(alloc: Global) -> Result<Key, Memory> {
    let larger = Boxed::new(alloc, Key::Larger(1_000))?;
    let last = or(alloc, Key::Seen, larger)?;
    Ok(Key::Not(or(alloc, Key::Flagged, last)?))
}

fn or(alloc: Global, key: Key, other: Boxed<Key>) -> Result<Boxed<Key>, Memory> {
    let key = Boxed::new(alloc, key)?;
    Boxed::new(alloc, Key::Or(key, other))
}
