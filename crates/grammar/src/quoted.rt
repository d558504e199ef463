// What the quoted strings and literals of mail protocols share (RFC 9051, 9; RFC 3656, 2.2).
ghost use Rattle.std.specs.Prelude.{◌≡◌, ◌++◌, OnOk, IfOk};
ghost use Rattle.grammar.specs.Gives.{Gives};
ghost use Rattle.grammar.specs.Quoted.{is_quoted_plain, is_quoted_special, escaped_char, plain_char, IsPlainRun, literal_text};

use crate::class::{Class, byte_of, exactly_of, passing_upto};
use crate::error::ReadError;
use crate::number::put_decimal;
use mur_base::{Bytes, Memory};

/// The characters that stand for themselves in a quoted string: 7 bits, and neither NUL, CR, LF nor one of `"` and `\`.
#[derive(Clone, Copy)]
pub struct QuotedPlain;

impl Class for QuotedPlain {
    ghost test = { λ _. is_quoted_plain };

    #[tactic(auto, unfolding(crate::specs::Quoted::is_quoted_plain))]
    fn holds(&self, byte: u8) -> bool {
        matches!(byte, 1..=127) && !matches!(byte, b'\r' | b'\n' | b'"' | b'\\')
    }
}

/// The characters that stand in a quoted string after a backslash.
#[derive(Clone, Copy)]
pub struct QuotedSpecial;

impl Class for QuotedSpecial {
    ghost test = { λ _. is_quoted_special };

    #[tactic(auto, unfolding(crate::specs::Quoted::is_quoted_special))]
    fn holds(&self, byte: u8) -> bool {
        matches!(byte, b'"' | b'\\')
    }
}

/// Reads a backslash and a character after it, and puts the character after a text.
pub fn escaped_char_of(so_far: Bytes, bytes: &[u8]) -> Result<(Bytes, &[u8]), ReadError>
    ensures { Gives (λ x. (x.0, x.1.now)) result ((escaped_char so_far).at bytes.now) }
{
    let mut text = so_far;
    let rest = byte_of(b'\\', bytes)?;
    let (char, rest) = exactly_of(&QuotedSpecial, 1, rest)?;
    text.extend_from_slice(char)?;
    Ok((text, rest))
}

/// Reads a character that stands for itself, and puts it after a text.
pub fn plain_char_of(so_far: Bytes, bytes: &[u8]) -> Result<(Bytes, &[u8]), ReadError>
    ensures { Gives (λ x. (x.0, x.1.now)) result ((plain_char so_far).at bytes.now) }
{
    let mut text = so_far;
    let (char, rest) = exactly_of(&QuotedPlain, 1, bytes)?;
    text.extend_from_slice(char)?;
    Ok((text, rest))
}

/// Puts the characters that stand for themselves after a text, at most so many, and gives the text, the bytes behind them and
/// how many there were, which may be none.
pub fn plain_run_of(
    most: usize,
    so_far: Bytes,
    bytes: &[u8],
) -> Result<(Bytes, &[u8], usize), Memory>
    ensures { IfOk result (λ x. IsPlainRun most so_far bytes.now x.0 x.1.now x.2) }
{
    let mut text = so_far;
    let len = passing_upto(&QuotedPlain, most, bytes);
    let (plain, rest) = bytes.split_at(len);
    text.extend_from_slice(plain)?;
    Ok((text, rest, len))
}

/// Prints a text as a literal that nobody waits for.
#[tactic(auto, using(std::proofs::lemmas::Grind::common_steps), unfolding(crate::specs::Quoted::literal_text))]
pub fn put_literal(text: &[u8], out: &mut Bytes) -> Result<(), Memory>
    ensures { OnOk result (out.new ≡ out.old ++ literal_text text.now) }
{
    out.push(b'{')?;
    put_decimal(text.len() as u64, out)?;
    out.extend_from_slice(b"+}\r\n")?;
    out.extend_from_slice(text)
}
