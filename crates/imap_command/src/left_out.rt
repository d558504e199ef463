// The commands that are left out (RFC 9051, 6.3.6 to 6.3.8, 6.3.10, 6.4.8 and 6.4.9; RFC 3501, 6.3.9).
ghost use Rattle.std.specs.Prelude.{◌≡◌, ◌∷◌, ◌++◌, IfOk};
ghost use Rattle.mur_base.specs.Ascii.{space};
ghost use Rattle.grammar.specs.Part.{map};
ghost use Rattle.grammar.specs.Gives.{Gives};
ghost use Rattle.imap_command.specs.LeftOut.{left_out, to_the_end};

use grammar::{AnyCase, Only, ReadError, all_before, begins, byte_of, word_of};
use imap_text::crlf_of;
use imap_types::Command;
use mur_base::{Bytes, Memory};
use std::alloc::Global;

/// Their names.
const NAMES: [&[u8]; 7] = [
    b"LSUB",
    b"MOVE",
    b"NAMESPACE",
    b"RENAME",
    b"SUBSCRIBE",
    b"UID MOVE",
    b"UNSUBSCRIBE",
];

/// A name, a space and the text behind it.
#[tactic(auto, using(std::proofs::lemmas::Grind::common_steps))]
fn spaced(alloc: Global, name: &[u8], text: &[u8]) -> Result<Bytes, Memory>
    ensures { IfOk result (λ octets. octets ≡ name.now ++ space ∷ text.now) }
{
    let mut octets = Bytes::from_slice(alloc, name)?;
    octets.push(b' ')?;
    octets.extend_from_slice(text)?;
    Ok(octets)
}

/// Reads what stands behind the name of a command that is left out, to its end.
fn behind_name_of<'a>(
    alloc: Global,
    name: &[u8],
    bytes: &'a [u8],
) -> Result<(Command, &'a [u8]), ReadError>
    ensures { Gives (λ x. (x.0, x.1.now)) result ((map (λ text. Command.LeftOut (name.now ++ text)) to_the_end).at bytes.now) }
{
    if begins(&Only(b' '), bytes) {
        let rest = byte_of(b' ', bytes)?;
        let (text, rest) = all_before(b"\r\n", rest)?;
        Ok((Command::LeftOut(spaced(alloc, name, text)?), rest))
    } else {
        let rest = crlf_of(bytes)?;
        Ok((Command::LeftOut(Bytes::from_slice(alloc, name)?), rest))
    }
}

/// Reads a command that is left out, to its end.
pub fn left_out_of(alloc: Global, bytes: &[u8]) -> Result<(Command, &[u8]), ReadError>
    ensures { Gives (λ x. (x.0, x.1.now)) result (left_out.at bytes.now) }
{
    let (name, rest) = word_of(&AnyCase { names: &NAMES }, bytes)?;
    behind_name_of(alloc, name, rest)
}
