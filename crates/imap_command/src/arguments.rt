// The arguments that several commands have.
ghost use Rattle.std.specs.Prelude.{◌≡◌, ◌++◌, OnOk};
ghost use Rattle.grammar.specs.Gives.{Gives};
ghost use Rattle.imap_command.specs.Arguments.{one_string, two_strings, optional_string};

use grammar::{Only, ReadError, begins, byte_of};
use imap_text::{astring_of, put_astring};
use mur_base::{Bytes, Memory};
use std::alloc::Global;

/// Reads a string behind a space.
pub fn one_string_of(alloc: Global, bytes: &[u8]) -> Result<(Bytes, &[u8]), ReadError>
    ensures { Gives (λ x. (x.0, x.1.now)) result (one_string.part.at bytes.now) }
{
    let rest = byte_of(b' ', bytes)?;
    astring_of(alloc, rest)
}

/// Reads two strings, each behind a space.
pub fn two_strings_of(alloc: Global, bytes: &[u8]) -> Result<((Bytes, Bytes), &[u8]), ReadError>
    ensures { Gives (λ x. (x.0, x.1.now)) result (two_strings.part.at bytes.now) }
{
    let rest = byte_of(b' ', bytes)?;
    let (one, rest) = astring_of(alloc, rest)?;
    let rest = byte_of(b' ', rest)?;
    let (other, rest) = astring_of(alloc, rest)?;
    Ok(((one, other), rest))
}

/// Reads a string behind a space, where one stands there.
pub fn optional_string_of(alloc: Global, bytes: &[u8]) -> Result<(Option<Bytes>, &[u8]), ReadError>
    ensures { Gives (λ x. (x.0, x.1.now)) result (optional_string.part.at bytes.now) }
{
    if begins(&Only(b' '), bytes) {
        let (text, rest) = one_string_of(alloc, bytes)?;
        Ok((Some(text), rest))
    } else {
        Ok((None, bytes))
    }
}

/// Prints a string behind a space.
#[tactic(auto, using(std::proofs::lemmas::Grind::common_steps))]
pub fn put_one_string(text: &Bytes, out: &mut Bytes) -> Result<(), Memory>
    ensures { OnOk result (out.new ≡ out.old ++ one_string.text text.now) }
{
    out.push(b' ')?;
    put_astring(text.as_slice(), out)
}

/// Prints two strings, each behind a space.
#[tactic(auto, using(std::proofs::lemmas::Grind::common_steps))]
pub fn put_two_strings(one: &Bytes, other: &Bytes, out: &mut Bytes) -> Result<(), Memory>
    ensures { OnOk result (out.new ≡ out.old ++ two_strings.text (one.now, other.now)) }
{
    out.push(b' ')?;
    put_astring(one.as_slice(), out)?;
    out.push(b' ')?;
    put_astring(other.as_slice(), out)
}

/// Prints a string behind a space, where there is one.
pub fn put_optional_string(text: &Option<Bytes>, out: &mut Bytes) -> Result<(), Memory>
    ensures { OnOk result (out.new ≡ out.old ++ optional_string.text text.now) }
{
    match text {
        Some(text) => put_one_string(text, out),
        None => Ok(()),
    }
}
