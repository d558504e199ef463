// Strings as arguments (RFC 3656, 2.2).
ghost use Rattle.std.specs.Prelude.{◌≡◌, ◌≤◌, [], ◌++◌, OnOk, IfOk};
ghost use Rattle.std.specs.List.{list_all};
ghost use Rattle.grammar.specs.Part.{starts, turns};
ghost use Rattle.grammar.specs.Gives.{Finds, Gives};
ghost use Rattle.grammar.specs.Quoted.{is_quoted_plain, is_no_quote};
ghost use Rattle.mupdate_codec.specs.Sizes.{size};
ghost use Rattle.mupdate_codec.specs.Strings.{mupdate_quoted_char, mupdate_quoted, header, mupdate_literal, mupdate_string, is_plain_quotable, plain_quoted_text, string_text};

use crate::limits::{QUOTED_MOST, STRING_LIMIT};
use grammar::{
    Class, Only, QuotedPlain, ReadError, Stop, Turn, begins, byte_of, escaped_char_of, exactly_of,
    number_of, optional_of, plain_char_of, plain_run_of, put_literal,
};
use mur_base::{Bytes, Memory};
use std::alloc::Global;
use text_parts::Any;

/// The text after some turns, the bytes behind them, and how many turns they were.
type TurnsTaken<'a> = Result<(Bytes, &'a [u8], usize), ReadError>;

/// The characters of a quoted string, which are put behind a text.
#[derive(Clone, Copy)]
struct QuotedChars;

impl Turn for QuotedChars {
    type State = Bytes;

    ghost starts = { λ _. is_no_quote };

    ghost part = { λ _. mupdate_quoted_char };

    fn starts(&self, byte: u8) -> bool {
        byte != b'"'
    }

    #[tactic(auto, unfolding(crate::specs::Strings::mupdate_quoted_char))]
    fn turn<'a>(&self, text: Bytes, bytes: &'a [u8]) -> Result<(Bytes, &'a [u8]), ReadError> {
        if begins(&Only(b'\\'), bytes) {
            escaped_char_of(text, bytes)
        } else {
            plain_char_of(text, bytes)
        }
    }

    /// A run of characters that stand for themselves is taken at once.
    fn turns<'a>(&self, most: usize, state: Bytes, bytes: &'a [u8]) -> TurnsTaken<'a> {
        let (text, rest, taken) = plain_run_of(most, state, bytes)?;
        if taken > 0 {
            return Ok((text, rest, taken));
        }
        let (text, rest) = self.turn(text, rest)?;
        Ok((text, rest, 1))
    }
}

/// Whether the bytes begin with no quote.
fn goes_on(bytes: &[u8]) -> bool
    ensures { result ≡ starts is_no_quote bytes.now }
{
    match bytes {
        [first, ..] => *first != b'"',
        [] => false,
    }
}

/// Reads at most so many characters of a quoted string, and gives their text.
fn chars_of(alloc: Global, most: usize, bytes: &[u8]) -> Result<(Bytes, &[u8]), ReadError>
    ensures { Gives (λ x. (x.0, x.1.now)) result ((turns is_no_quote mupdate_quoted_char most []).at bytes.now) }
{
    let mut text = Bytes::new(alloc);
    let mut rest = bytes;
    let mut left = most;
    while left > 0 && goes_on(rest) {
        let (next, behind, taken) = QuotedChars.turns(left, text, rest)?;
        text = next;
        rest = behind;
        left -= taken;
    }
    Ok((text, rest))
}

/// Reads a quoted string.
fn quoted_of(alloc: Global, bytes: &[u8]) -> Result<(Bytes, &[u8]), ReadError>
    ensures { Gives (λ x. (x.0, x.1.now)) result (mupdate_quoted.at bytes.now) }
{
    let rest = byte_of(b'"', bytes)?;
    let (text, rest) = chars_of(alloc, STRING_LIMIT, rest)?;
    let rest = byte_of(b'"', rest)?;
    Ok((text, rest))
}

/// Reads a number between two bounds, before which zeros may stand.
#[tactic(auto, using(crate::proofs::SizeSteps::size_found, crate::proofs::SizeSteps::size_small, crate::proofs::SizeSteps::size_stops))]
fn size_of(least: usize, most: usize, bytes: &[u8]) -> Result<(usize, &[u8]), Stop>
    ensures reads { Finds (λ x. (x.0, x.1.now)) result ((size least most).at bytes.now) }
    ensures within { IfOk result (λ x. x.0 ≤ most) }
{
    let (number, rest) = number_of(true, most as u64, bytes)?;
    let number = number as usize;
    if number >= least {
        Ok((number, rest))
    } else {
        Err(Stop { left: rest.len() })
    }
}

/// Reads the header of a literal of either kind, and gives how many bytes follow.
pub fn header_of(least: usize, most: usize, bytes: &[u8]) -> Result<(usize, &[u8]), Stop>
    ensures reads { Finds (λ x. (x.0, x.1.now)) result ((header least most).at bytes.now) }
    ensures within { IfOk result (λ x. x.0 ≤ most) }
{
    let rest = byte_of(b'{', bytes)?;
    let (size, rest) = size_of(least, most, rest)?;
    let (_, rest) = optional_of(b'+', rest);
    let rest = byte_of(b'}', rest)?;
    let rest = byte_of(b'\r', rest)?;
    let rest = byte_of(b'\n', rest)?;
    Ok((size, rest))
}

/// Reads a literal of either kind.
fn literal_of(alloc: Global, bytes: &[u8]) -> Result<(Bytes, &[u8]), ReadError>
    ensures { Gives (λ x. (x.0, x.1.now)) result (mupdate_literal.at bytes.now) }
{
    let (size, rest) = header_of(0, STRING_LIMIT, bytes)?;
    let (octets, rest) = exactly_of(&Any, size, rest)?;
    Ok((Bytes::from_slice(alloc, octets)?, rest))
}

/// Reads a quoted string or a literal.
#[tactic(auto, unfolding(crate::specs::Strings::mupdate_string))]
pub fn string_of(alloc: Global, bytes: &[u8]) -> Result<(Bytes, &[u8]), ReadError>
    ensures { Gives (λ x. (x.0, x.1.now)) result (mupdate_string.at bytes.now) }
{
    if begins(&Only(b'"'), bytes) {
        quoted_of(alloc, bytes)
    } else {
        literal_of(alloc, bytes)
    }
}

/// Whether each byte of a text stands for itself in quotes, and there are few.
#[tactic(auto, unfolding(crate::specs::Strings::is_plain_quotable))]
fn is_quotable(text: &[u8]) -> bool
    ensures { result ≡ is_plain_quotable text.now }
{
    text.len() <= QUOTED_MOST && are_plain(text)
}

fn are_plain(text: &[u8]) -> bool
    ensures { result ≡ list_all is_quoted_plain text.now }
{
    text.iter().all(|byte| QuotedPlain.holds(*byte))
}

/// Prints a text in quotes. Whether its bytes may stand there is for the caller to know.
#[tactic(auto, using(std::proofs::lemmas::Grind::common_steps))]
fn put_quoted(text: &[u8], out: &mut Bytes) -> Result<(), Memory>
    ensures { OnOk result (out.new ≡ out.old ++ plain_quoted_text text.now) }
{
    out.push(b'"')?;
    out.extend_from_slice(text)?;
    out.push(b'"')
}

/// Prints a text in quotes, where each of its bytes stands there for itself and they are few, else as a literal.
#[tactic(auto, unfolding(crate::specs::Strings::string_text))]
pub fn put_string(text: &[u8], out: &mut Bytes) -> Result<(), Memory>
    ensures { OnOk result (out.new ≡ out.old ++ string_text text.now) }
{
    if is_quotable(text) {
        put_quoted(text, out)
    } else {
        put_literal(text, out)
    }
}
