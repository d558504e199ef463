// The words of a schedule's line, with one space before each but the first.
ghost use Rattle.std.specs.Prelude.{◌≡◌, ◌≤◌, length, map, MatchResult, Ok, Err, IfOk};
ghost use Rattle.schedule_text.specs.ScheduleWords.{IsCutAs, shown, split_word, word_in, argument_in, first_argument, arguments_in, number_of_word};

use crate::schedule::fault::Rule;
use crate::words::{Kind, MOST_ARGUMENTS};
use arrayvec::ArrayVec;
use memchr::memchr;
use mur_base::read_number;

/// A word and the text after it: empty, or a space and more.
#[derive(Clone, Copy)]
pub struct Cut<'a> {
    pub word: &'a [u8],
    pub rest: &'a [u8],
}

/// A text up to its first space, and from there on.
#[tactic(auto, using(crate::proofs::SplitLaws::by_space))]
pub fn split_word(text: &[u8]) -> Cut<'_>
    ensures { shown result ≡ split_word text.now }
{
    let (word, rest) = match memchr(b' ', text) {
        Some(at) => text.split_at(at),
        None => (text, &[][..]),
    };
    Cut { word, rest }
}

/// A word that has bytes.
#[tactic(auto, unfolding(crate::specs::ScheduleWords::word_in))]
fn word_in(text: &[u8]) -> Result<Cut<'_>, Rule>
    ensures { IsCutAs (word_in text.now) result }
{
    let cut = split_word(text);
    if cut.word.is_empty() {
        Err(Rule::WrongCount)
    } else {
        Ok(cut)
    }
}

/// A text is all that is left, another argument is one word.
#[tactic(auto, unfolding(crate::specs::ScheduleWords::argument_in))]
fn argument_in(kind: Kind, text: &[u8]) -> Result<Cut<'_>, Rule>
    ensures { IsCutAs (argument_in kind text.now) result }
{
    match kind {
        Kind::Text => Ok(Cut {
            word: text,
            rest: &[],
        }),
        Kind::Node | Kind::Number => word_in(text),
    }
}

/// The argument after a space.
#[tactic(auto, unfolding(crate::specs::ScheduleWords::first_argument))]
fn first_argument(kind: Kind, rest: &[u8]) -> Result<Cut<'_>, Rule>
    ensures { IsCutAs (first_argument kind rest.now) result }
{
    match rest {
        [b' ', text @ ..] => argument_in(kind, text),
        _ => Err(Rule::WrongCount),
    }
}

/// The arguments of these kinds after a word, and nothing after them.
#[tactic(auto, using(crate::proofs::SplitLaws::none_before), unfolding(crate::specs::ScheduleWords::arguments_in))]
pub fn arguments_in<'a>(
    kinds: &[Kind],
    rest: &'a [u8],
) -> Result<ArrayVec<&'a [u8], MOST_ARGUMENTS>, Rule>
    requires { length kinds.now ≤ MOST_ARGUMENTS }
    ensures read { MatchResult result
        (λ arguments. arguments_in kinds.now rest.now ≡ Ok (map (λ argument. argument.now) arguments.items))
        (λ rule. arguments_in kinds.now rest.now ≡ Err rule) }
    ensures count { IfOk result (λ arguments. length arguments.items ≡ length kinds.now) }
{
    let mut arguments = ArrayVec::new();
    let mut left = rest;
    for kind in kinds {
        let cut = first_argument(*kind, left)?;
        arguments.push(cut.word);
        left = cut.rest;
    }
    if left.is_empty() {
        Ok(arguments)
    } else {
        Err(Rule::WrongCount)
    }
}

/// The number that a word is.
#[tactic(auto, unfolding(crate::specs::ScheduleWords::number_of_word))]
pub fn number_in(word: &[u8]) -> Result<u64, Rule>
    ensures { result ≡ number_of_word word.now }
{
    read_number(word).ok_or(Rule::BadNumber)
}
