// What a search key matches.
ghost use Rattle.std.specs.Prelude.{◌≡◌};
ghost use Rattle.mail_message.specs.Sets.{set_holds};
ghost use Rattle.mail_search.specs.Matching.{key_matches, all_match};

use mail_message::{Key, SetPart, Summary};

/// Whether a number is in a set: the one meaning of sets of sequence numbers and of UIDs (RFC 9051, 9: sequence-set). A range
/// stands in either order; where `*` stands in a part it holds nothing, so a number is put in its place first. It takes no memory,
/// and at most one pass over the set.
pub fn set_holds(set: &[SetPart], number: u32) -> bool
    ensures { result ≡ set_holds set.now number }
{
    set.iter().any(|part| part.holds(number))
}

/// Whether a key matches a message that has this sequence number (RFC 9051, 6.4.4). It takes no memory and goes no deeper than
/// keys nest.
#[cycle(keys)]
pub fn key_matches(key: &Key, message: &Summary, number: u32) -> bool
    ensures { result ≡ key_matches key.now message.now number }
{
    match key {
        Key::All => true,
        Key::Answered => message.flags.system().answered,
        Key::Deleted => message.flags.system().deleted,
        Key::Draft => message.flags.system().draft,
        Key::Flagged => message.flags.system().flagged,
        Key::Seen => message.flags.system().seen,
        Key::Unanswered => !message.flags.system().answered,
        Key::Undeleted => !message.flags.system().deleted,
        Key::Undraft => !message.flags.system().draft,
        Key::Unflagged => !message.flags.system().flagged,
        Key::Unseen => !message.flags.system().seen,
        Key::Keyword(flag) => message.flags.has(flag),
        Key::Unkeyword(flag) => !message.flags.has(flag),
        Key::Larger(size) => message.size > *size,
        Key::Smaller(size) => message.size < *size,
        Key::Before(day) => message.date.day().is_before(*day),
        Key::On(day) => message.date.day() == *day,
        Key::Since(day) => !message.date.day().is_before(*day),
        Key::Uid(set) => set_holds(set.as_slice(), message.uid),
        Key::Numbers(set) => set_holds(set.as_slice(), number),
        Key::Not(key) => !key_matches(key.get(), message, number),
        Key::Or(one, other) => {
            key_matches(one.get(), message, number) || key_matches(other.get(), message, number)
        }
        Key::Group(keys) => all_match(keys.as_slice(), message, number),
    }
}

/// Whether all of some keys match a message that has this sequence number.
#[cycle(keys)]
pub fn all_match(keys: &[Key], message: &Summary, number: u32) -> bool
    ensures { result ≡ all_match keys.now message.now number }
{
    for key in keys {
        if !key_matches(key, message, number) {
            return false;
        }
    }
    true
}
