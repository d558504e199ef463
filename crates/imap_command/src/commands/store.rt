// STORE (RFC 9051, 6.4.6).
ghost use Rattle.std.specs.Prelude.{◌≡◌, ◌++◌, OnOk};
ghost use Rattle.grammar.specs.Forms.{◌spaced◌};
ghost use Rattle.grammar.specs.Gives.{Gives};
ghost use Rattle.imap_command.specs.Flags.{store_flags};
ghost use Rattle.imap_command.specs.Store.{mode_text, store_form, store_mode};

use crate::flags::{put_flags, store_flags_of};
use crate::sets::{put_set, set_of};
use grammar::{ReadError, byte_of, table_of};
use mail_message::{FlagSet, Mode, SetParts};
use mur_base::{Bytes, Memory};
use std::alloc::Global;

/// The names of the modes; the second value says whether it is silent.
const MODE_ROWS: [(&[u8], (Mode, bool)); 6] = [
    (b"FLAGS", (Mode::Replace, false)),
    (b"FLAGS.SILENT", (Mode::Replace, true)),
    (b"+FLAGS", (Mode::Add, false)),
    (b"+FLAGS.SILENT", (Mode::Add, true)),
    (b"-FLAGS", (Mode::Remove, false)),
    (b"-FLAGS.SILENT", (Mode::Remove, true)),
];

/// Reads a mode and, behind a space, flags.
fn mode_with_flags_of(
    alloc: Global,
    bytes: &[u8],
) -> Result<(((Mode, bool), FlagSet), &[u8]), ReadError>
    ensures { Gives (λ x. (x.0, x.1.now)) result ((store_mode spaced store_flags).part.at bytes.now) }
{
    let (mode, rest) = table_of((Mode::Replace, false), &MODE_ROWS, bytes)?;
    let rest = byte_of(b' ', rest)?;
    let (flags, rest) = store_flags_of(alloc, rest)?;
    Ok(((mode, flags), rest))
}

/// Reads what stands behind the name STORE.
pub fn store_of(
    alloc: Global,
    bytes: &[u8],
) -> Result<((SetParts, ((Mode, bool), FlagSet)), &[u8]), ReadError>
    ensures { Gives (λ x. (x.0, x.1.now)) result (store_form.part.at bytes.now) }
{
    let rest = byte_of(b' ', bytes)?;
    let (set, rest) = set_of(alloc, rest)?;
    let rest = byte_of(b' ', rest)?;
    let (change, rest) = mode_with_flags_of(alloc, rest)?;
    Ok(((set, change), rest))
}

/// Prints a mode.
#[tactic(auto, unfolding(crate::specs::Store::mode_text))]
fn put_mode(mode: Mode, is_silent: bool, out: &mut Bytes) -> Result<(), Memory>
    ensures { OnOk result (out.new ≡ out.old ++ mode_text (mode, is_silent)) }
{
    match (mode, is_silent) {
        (Mode::Replace, false) => out.extend_from_slice(b"FLAGS"),
        (Mode::Replace, true) => out.extend_from_slice(b"FLAGS.SILENT"),
        (Mode::Add, false) => out.extend_from_slice(b"+FLAGS"),
        (Mode::Add, true) => out.extend_from_slice(b"+FLAGS.SILENT"),
        (Mode::Remove, false) => out.extend_from_slice(b"-FLAGS"),
        (Mode::Remove, true) => out.extend_from_slice(b"-FLAGS.SILENT"),
    }
}

/// Prints what stands behind the name STORE.
#[tactic(auto, using(std::proofs::lemmas::Grind::common_steps))]
pub fn put_store(
    alloc: Global,
    set: &SetParts,
    mode: Mode,
    is_silent: bool,
    flags: &FlagSet,
    out: &mut Bytes,
) -> Result<(), Memory>
    ensures { OnOk result (out.new ≡ out.old ++ store_form.text (set.now, ((mode, is_silent), flags.now))) }
{
    out.push(b' ')?;
    put_set(set, out)?;
    out.push(b' ')?;
    put_mode(mode, is_silent, out)?;
    out.push(b' ')?;
    put_flags(alloc, flags, out)
}
