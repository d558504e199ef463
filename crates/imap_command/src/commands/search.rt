// SEARCH (RFC 9051, 6.4.4).
ghost use Rattle.std.specs.Prelude.{◌≡◌, ◌++◌, OnOk};
ghost use Rattle.grammar.specs.Gives.{Finds, Gives};
ghost use Rattle.imap_command.specs.Search.{begins_return, returned, search_form};

use crate::keys::{keys_of, put_keys};
use grammar::{AnyCase, Class, ReadError, Stop, begins, byte_of, word_of};
use mail_message::Keys;
use mur_base::{Bytes, Memory};
use std::alloc::Global;

/// How deep keys nest: so many keys may stand round a key.
const KEY_DEPTH: usize = 64;

/// The name before the return options.
const RETURN_NAMES: [&[u8]; 1] = [b"RETURN"];

/// The return options.
const OPTION_NAMES: [&[u8]; 2] = [b"()", b"(ALL)"];

/// What begins the name before the return options.
#[derive(Clone, Copy)]
struct ReturnStart;

impl Class for ReturnStart {
    ghost test = { λ _. begins_return };

    fn holds(&self, byte: u8) -> bool {
        byte.eq_ignore_ascii_case(&b'R')
    }
}

/// Reads the return options behind their name.
fn returned_of(bytes: &[u8]) -> Result<(&[u8], &[u8]), Stop>
    ensures { Finds (λ x. (x.0.now, x.1.now)) result (returned.at bytes.now) }
{
    let (_, rest) = word_of(
        &AnyCase {
            names: &RETURN_NAMES,
        },
        bytes,
    )?;
    let rest = byte_of(b' ', rest)?;
    word_of(
        &AnyCase {
            names: &OPTION_NAMES,
        },
        rest,
    )
}

/// Reads what stands behind the name SEARCH.
pub fn search_of(alloc: Global, bytes: &[u8]) -> Result<(Keys, &[u8]), ReadError>
    ensures { Gives (λ x. (x.0, x.1.now)) result (search_form.part.at bytes.now) }
{
    let rest = byte_of(b' ', bytes)?;
    if begins(&ReturnStart, rest) {
        let (_, rest) = returned_of(rest)?;
        let rest = byte_of(b' ', rest)?;
        keys_of(alloc, KEY_DEPTH, rest)
    } else {
        keys_of(alloc, KEY_DEPTH, rest)
    }
}

/// Prints what stands behind the name SEARCH.
#[tactic(auto, using(std::proofs::lemmas::Grind::common_steps))]
pub fn put_search(keys: &Keys, out: &mut Bytes) -> Result<(), Memory>
    ensures { OnOk result (out.new ≡ out.old ++ search_form.text keys.now) }
{
    out.push(b' ')?;
    put_keys(keys.as_slice(), out)
}
