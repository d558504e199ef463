// AUTHENTICATE PLAIN (RFC 9051, 6.2.2; RFC 4616).
ghost use Rattle.std.specs.Prelude.{◌≡◌, ◌++◌, OnOk};
ghost use Rattle.mur_base.specs.Ascii.{space};
ghost use Rattle.grammar.specs.Forms.{maybe};
ghost use Rattle.grammar.specs.Gives.{Gives};
ghost use Rattle.imap_command.specs.Authenticate.{is_base64_char, authenticate_form, response as response_form};

use grammar::{AnyCase, Class, Only, ReadError, Run, begins, byte_of, word_of};
use mur_base::{Bytes, Memory};
use std::alloc::Global;

/// A character of base64, or `=`.
#[derive(Clone, Copy)]
struct Base64Char;

impl Class for Base64Char {
    ghost test = { λ _. is_base64_char };

    #[tactic(auto, unfolding(crate::specs::Authenticate::is_base64_char))]
    fn holds(&self, byte: u8) -> bool {
        byte.is_ascii_alphanumeric() || (byte == b'+' || (byte == b'/' || byte == b'='))
    }
}

/// The one mechanism.
const MECHANISM: [&[u8]; 1] = [b"PLAIN"];

/// Reads a response behind a space, where one stands there.
fn response_of(alloc: Global, bytes: &[u8]) -> Result<(Option<Bytes>, &[u8]), ReadError>
    ensures { Gives (λ x. (x.0, x.1.now)) result ((maybe space response_form).part.at bytes.now) }
{
    if begins(&Only(b' '), bytes) {
        let rest = byte_of(b' ', bytes)?;
        let (response, rest) = word_of(&Run { of: Base64Char }, rest)?;
        Ok((Some(Bytes::from_slice(alloc, response)?), rest))
    } else {
        Ok((None, bytes))
    }
}

/// Reads what stands behind the name AUTHENTICATE.
pub fn authenticate_of(alloc: Global, bytes: &[u8]) -> Result<(Option<Bytes>, &[u8]), ReadError>
    ensures { Gives (λ x. (x.0, x.1.now)) result (authenticate_form.part.at bytes.now) }
{
    let rest = byte_of(b' ', bytes)?;
    let (_, rest) = word_of(&AnyCase { names: &MECHANISM }, rest)?;
    response_of(alloc, rest)
}

/// Prints what stands behind the name AUTHENTICATE.
#[tactic(auto, using(std::proofs::lemmas::Grind::common_steps))]
pub fn put_authenticate(response: &Option<Bytes>, out: &mut Bytes) -> Result<(), Memory>
    ensures { OnOk result (out.new ≡ out.old ++ authenticate_form.text response.now) }
{
    match response {
        Some(response) => {
            out.extend_from_slice(b" PLAIN ")?;
            out.extend_from_slice(response.as_slice())
        }
        None => out.extend_from_slice(b" PLAIN"),
    }
}
