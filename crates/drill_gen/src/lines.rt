// What the lines that clients were given tell.
ghost use Rattle.std.specs.Prelude.{◌≡◌, ◌++◌, OnOk, drop, map};
ghost use Rattle.schedule_text.specs.Cuts.{cuts_of};
ghost use Rattle.drill_gen.specs.LineKinds.{kind_of_line, kind_by_words, tagged_kind, untagged_kind, first_word, second_word, is_kind, count_of};

use mur_base::{Items, Memory};
use schedule_text::{LineCuts, split_word};

/// What a line tells a client.
#[derive(Clone, Copy, Debug, PartialEq, Eq, Drop)]
pub enum LineKind {
    /// A command is answered OK.
    Ok,
    /// A command is answered NO.
    No,
    /// A command is answered BAD.
    Bad,
    /// The connection ends.
    Bye,
    /// Anything else.
    Other,
}

/// Puts what each line tells at the end, where a text is cut after each LF; for want of memory the list is spent.
pub fn put_kinds(given: &[u8], kinds: &mut Items<LineKind>) -> Result<(), Memory>
    ensures { OnOk result (kinds.new ≡ kinds.old ++ map kind_of_line (cuts_of given.now)) }
{
    for line in LineCuts::new(given) {
        kinds.push(kind_of_line(line))?;
    }
    Ok(())
}

#[tactic(auto, unfolding(crate::specs::LineKinds::kind_of_line, crate::specs::LineKinds::first_word, crate::specs::LineKinds::second_word))]
fn kind_of_line(line: &[u8]) -> LineKind
    ensures { result ≡ kind_of_line line.now }
{
    let first = split_word(line);
    let second = split_word(behind_space(first.rest));
    kind_by_words(first.word, second.word)
}

// What follows the space with which a text begins, if it has bytes.
fn behind_space(text: &[u8]) -> &[u8]
    ensures { result.now ≡ drop 1 text.now }
{
    match text {
        [] => text,
        [_, rest @ ..] => rest,
    }
}

#[tactic(auto, unfolding(crate::specs::LineKinds::kind_by_words))]
fn kind_by_words(first: &[u8], second: &[u8]) -> LineKind
    ensures { result ≡ kind_by_words first.now second.now }
{
    if first == b"*".as_slice() {
        untagged_kind(second)
    } else if first == b"+".as_slice() {
        LineKind::Other
    } else {
        tagged_kind(second)
    }
}

#[tactic(auto, unfolding(crate::specs::LineKinds::untagged_kind))]
fn untagged_kind(word: &[u8]) -> LineKind
    ensures { result ≡ untagged_kind word.now }
{
    if word == b"BYE".as_slice() {
        LineKind::Bye
    } else {
        LineKind::Other
    }
}

#[tactic(auto, unfolding(crate::specs::LineKinds::tagged_kind))]
fn tagged_kind(word: &[u8]) -> LineKind
    ensures { result ≡ tagged_kind word.now }
{
    if word == b"OK".as_slice() {
        LineKind::Ok
    } else if word == b"NO".as_slice() {
        LineKind::No
    } else if word == b"BAD".as_slice() {
        LineKind::Bad
    } else {
        LineKind::Other
    }
}

#[tactic(auto, unfolding(crate::specs::LineKinds::is_kind))]
fn is_kind(wanted: LineKind, kind: LineKind) -> bool
    ensures { result ≡ is_kind wanted kind }
{
    wanted == kind
}

/// How many lines are of a kind.
#[tactic(auto, unfolding(crate::specs::LineKinds::count_of))]
pub fn count_of(wanted: LineKind, kinds: &[LineKind]) -> u64
    ensures { result ≡ count_of wanted kinds.now }
{
    kinds.iter().filter(|kind| is_kind(wanted, **kind)).count() as u64
}
