// Search keys.
use crate::day::Day;
use crate::flag_name::FlagName;
use crate::set::SetParts;
use mur_base::{Boxed, Items};

/// A search key (RFC 9051, 6.4.4).
#[derive(Drop)]
pub enum Key {
    All,
    Answered,
    Deleted,
    Draft,
    Flagged,
    Seen,
    Unanswered,
    Undeleted,
    Undraft,
    Unflagged,
    Unseen,
    Keyword(FlagName),
    Unkeyword(FlagName),
    /// The message's body has more than so many bytes.
    Larger(u64),
    /// The message's body has fewer than so many bytes.
    Smaller(u64),
    /// The internal date is earlier than the day; its time and zone count for nothing here, and in the next two.
    Before(Day),
    /// The internal date is within the day.
    On(Day),
    /// The internal date is within the day or later.
    Since(Day),
    /// The UID is in the set.
    Uid(SetParts),
    /// The sequence number is in the set.
    Numbers(SetParts),
    Not(Boxed<Key>),
    Or(Boxed<Key>, Boxed<Key>),
    /// Keys in parentheses, of which all are meant.
    Group(Keys),
}

/// The keys of a command, of which all are meant.
pub type Keys = Items<Key>;
