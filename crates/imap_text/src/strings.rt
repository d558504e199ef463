// Strings (RFC 9051, 4.3 and 9).
ghost use Rattle.std.specs.Prelude.{◌≡◌, ◌++◌, OnOk};
ghost use Rattle.std.specs.List.{list_all};
ghost use Rattle.mur_base.specs.Ascii.{lf};
ghost use Rattle.grammar.specs.Quoted.{is_no_quote};
ghost use Rattle.grammar.specs.Gives.{Finds, Gives};
ghost use Rattle.imap_text.specs.Characters.{is_astring_char, is_atom_char, is_text_char, is_char8};
ghost use Rattle.imap_text.specs.Strings.{crlf_part, quoted_char, quoted, literal, string, astring, atom, escaped, escaped_text};
ghost use Rattle.imap_text.specs.Strings.{quoted_text, is_astring_atom, is_atom, is_quotable, astring_text};

use crate::utf8::utf8_of;
use grammar::{
    Class, Digit, Only, Production, QuotedPlain, QuotedSpecial, ReadError, Run, Stop, Turn, begins,
    byte_of, counted_of, escaped_char_of, optional_of, plain_char_of, plain_run_of, put_literal,
    repeated_of, word_of,
};
use memchr::memchr;
use mur_base::{Bytes, Memory};
use std::alloc::Global;

/// ASTRING-CHAR.
#[derive(Clone, Copy)]
pub struct AstringChar;

impl Class for AstringChar {
    ghost test = { λ _. is_astring_char };

    #[tactic(auto, unfolding(crate::specs::Characters::is_astring_char))]
    fn holds(&self, byte: u8) -> bool {
        byte.is_ascii_graphic() && !matches!(byte, b'(' | b')' | b'{' | b'%' | b'*' | b'"' | b'\\')
    }
}

/// ATOM-CHAR.
#[derive(Clone, Copy)]
struct AtomChar;

impl Class for AtomChar {
    ghost test = { λ _. is_atom_char };

    #[tactic(auto, unfolding(crate::specs::Characters::is_atom_char))]
    fn holds(&self, byte: u8) -> bool {
        AstringChar.holds(byte) && byte != b']'
    }
}

/// TEXT-CHAR.
#[derive(Clone, Copy)]
struct TextChar;

impl Class for TextChar {
    ghost test = { λ _. is_text_char };

    #[tactic(auto, unfolding(crate::specs::Characters::is_text_char))]
    fn holds(&self, byte: u8) -> bool {
        QuotedPlain.holds(byte) || QuotedSpecial.holds(byte)
    }
}

/// CHAR8.
#[derive(Clone, Copy)]
struct Char8;

impl Class for Char8 {
    ghost test = { λ _. is_char8 };

    #[tactic(auto, unfolding(crate::specs::Characters::is_char8))]
    fn holds(&self, byte: u8) -> bool {
        byte != 0
    }

    fn passing_len(&self, bytes: &[u8]) -> usize {
        memchr(0, bytes).unwrap_or(bytes.len())
    }
}

/// Reads CRLF.
#[tactic(auto, unfolding(crate::specs::Strings::crlf_part))]
pub fn crlf_of(bytes: &[u8]) -> Result<&[u8], Stop>
    ensures { Finds (λ rest. (lf, rest.now)) result (crlf_part.at bytes.now) }
{
    let rest = byte_of(b'\r', bytes)?;
    let rest = byte_of(b'\n', rest)?;
    Ok(rest)
}

/// The characters of a quoted string, which are put behind a text.
#[derive(Clone, Copy)]
struct QuotedChars;

impl Turn for QuotedChars {
    type State = Bytes;

    ghost starts = { λ _. is_no_quote };

    ghost part = { λ _. quoted_char };

    fn starts(&self, byte: u8) -> bool {
        byte != b'"'
    }

    #[tactic(auto, unfolding(crate::specs::Strings::quoted_char))]
    fn turn<'a>(&self, state: Bytes, bytes: &'a [u8]) -> Result<(Bytes, &'a [u8]), ReadError> {
        if begins(&Only(b'\\'), bytes) {
            escaped_char_of(state, bytes)
        } else if begins(&QuotedPlain, bytes) {
            plain_char_of(state, bytes)
        } else {
            utf8_of(state, bytes)
        }
    }

    /// A run of characters that stand for themselves is taken at once.
    fn turns<'a>(
        &self,
        most: usize,
        state: Bytes,
        bytes: &'a [u8],
    ) -> Result<(Bytes, &'a [u8], usize), ReadError> {
        let (text, rest, taken) = plain_run_of(most, state, bytes)?;
        if taken > 0 {
            return Ok((text, rest, taken));
        }
        let (text, rest) = self.turn(text, rest)?;
        Ok((text, rest, 1))
    }
}

/// Reads a quoted string.
#[tactic(auto, unfolding(crate::specs::Strings::quoted))]
fn quoted_of(alloc: Global, bytes: &[u8]) -> Result<(Bytes, &[u8]), ReadError>
    ensures { Gives (λ x. (x.0, x.1.now)) result (quoted.at bytes.now) }
{
    let rest = byte_of(b'"', bytes)?;
    let (text, rest) = repeated_of(&QuotedChars, Bytes::new(alloc), rest)?;
    let rest = byte_of(b'"', rest)?;
    Ok((text, rest))
}

/// Reads a literal of either kind.
#[tactic(auto, unfolding(crate::specs::Strings::literal))]
pub fn literal_of(alloc: Global, bytes: &[u8]) -> Result<(Bytes, &[u8]), ReadError>
    ensures { Gives (λ x. (x.0, x.1.now)) result (literal.at bytes.now) }
{
    let rest = byte_of(b'{', bytes)?;
    let (digits, rest) = word_of(&Run { of: Digit }, rest)?;
    let (_, rest) = optional_of(b'+', rest);
    let rest = byte_of(b'}', rest)?;
    let rest = crlf_of(rest)?;
    let (octets, rest) = counted_of(&Char8, digits, rest)?;
    Ok((Bytes::from_slice(alloc, octets)?, rest))
}

/// Reads a quoted string or a literal.
#[tactic(auto, unfolding(crate::specs::Strings::string))]
pub fn string_of(alloc: Global, bytes: &[u8]) -> Result<(Bytes, &[u8]), ReadError>
    ensures { Gives (λ x. (x.0, x.1.now)) result (string.at bytes.now) }
{
    if begins(&Only(b'"'), bytes) {
        quoted_of(alloc, bytes)
    } else {
        literal_of(alloc, bytes)
    }
}

/// Reads an astring.
#[tactic(auto, unfolding(crate::specs::Strings::astring))]
pub fn astring_of(alloc: Global, bytes: &[u8]) -> Result<(Bytes, &[u8]), ReadError>
    ensures { Gives (λ x. (x.0, x.1.now)) result (astring.at bytes.now) }
{
    if begins(&AstringChar, bytes) {
        let (text, rest) = word_of(&Run { of: AstringChar }, bytes)?;
        Ok((Bytes::from_slice(alloc, text)?, rest))
    } else {
        string_of(alloc, bytes)
    }
}

/// atom.
#[derive(Clone, Copy)]
pub struct Atom;

impl Production for Atom {
    type Value = Bytes;

    ghost form = { λ _. atom };

    fn read<'a>(&self, alloc: Global, bytes: &'a [u8]) -> Result<(Bytes, &'a [u8]), ReadError> {
        let (text, rest) = word_of(&Run { of: AtomChar }, bytes)?;
        Ok((Bytes::from_slice(alloc, text)?, rest))
    }

    fn put(&self, value: &Bytes, out: &mut Bytes) -> Result<(), Memory> {
        out.extend_from_slice(value.as_slice())
    }
}

/// Whether all bytes of a text are of a set.
pub fn are_all<C: Class>(class: &C, text: &[u8]) -> bool
    ensures { result ≡ list_all (C.test class.now) text.now }
{
    for byte in text {
        if !class.holds(*byte) {
            return false;
        }
    }
    true
}

/// Whether a text is an atom, with `]` allowed.
#[tactic(auto, unfolding(crate::specs::Strings::is_astring_atom))]
fn is_astring_atom(text: &[u8]) -> bool
    ensures { result ≡ is_astring_atom text.now }
{
    are_all(&AstringChar, text) && !text.is_empty()
}

/// Whether a text is an atom (RFC 9051, 9: atom).
#[tactic(auto, unfolding(crate::specs::Strings::is_atom))]
pub fn is_atom(text: &[u8]) -> bool
    ensures { result ≡ is_atom text.now }
{
    are_all(&AtomChar, text) && !text.is_empty()
}

/// The greatest length in bytes of a text that is printed in quotes.
const QUOTED_MOST: usize = 1024;

/// Whether a text is one that is printed in quotes, where it is no atom.
#[tactic(auto, unfolding(crate::specs::Strings::is_quotable))]
fn is_quotable(text: &[u8]) -> bool
    ensures { result ≡ is_quotable text.now }
{
    text.len() <= QUOTED_MOST && are_all(&TextChar, text)
}

/// Prints a character of a quoted string.
#[tactic(auto, using(std::proofs::lemmas::Grind::common_steps), unfolding(crate::specs::Strings::escaped))]
fn put_escaped(byte: u8, out: &mut Bytes) -> Result<(), Memory>
    ensures { OnOk result (out.new ≡ out.old ++ escaped byte) }
{
    if QuotedSpecial.holds(byte) {
        out.push(b'\\')?;
    }
    out.push(byte)
}

/// Prints the characters of a quoted string.
#[tactic(auto, unfolding(crate::specs::Strings::escaped_text))]
fn put_escaped_text(text: &[u8], out: &mut Bytes) -> Result<(), Memory>
    ensures { OnOk result (out.new ≡ out.old ++ escaped_text text.now) }
{
    for byte in text {
        put_escaped(*byte, out)?;
    }
    Ok(())
}

/// Prints a text as a quoted string, with a backslash before each `"` and `\` (RFC 9051, 9: quoted). Whether its bytes may
/// stand there is for the caller to know.
#[tactic(auto, using(std::proofs::lemmas::Grind::common_steps), unfolding(crate::specs::Strings::quoted_text))]
pub fn put_quoted(text: &[u8], out: &mut Bytes) -> Result<(), Memory>
    ensures { OnOk result (out.new ≡ out.old ++ quoted_text text.now) }
{
    out.push(b'"')?;
    put_escaped_text(text, out)?;
    out.push(b'"')
}

/// Prints a string as an atom, in quotes or as a literal, the first of them that it can be.
#[tactic(auto, unfolding(crate::specs::Strings::astring_text))]
pub fn put_astring(text: &[u8], out: &mut Bytes) -> Result<(), Memory>
    ensures { OnOk result (out.new ≡ out.old ++ astring_text text.now) }
{
    if is_astring_atom(text) {
        out.extend_from_slice(text)
    } else if is_quotable(text) {
        put_quoted(text, out)
    } else {
        put_literal(text, out)
    }
}
