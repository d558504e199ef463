// Sets of message numbers (RFC 9051, 9: sequence-set).
ghost use Rattle.std.specs.Prelude.{◌≡◌, ◌++◌, OnOk};
ghost use Rattle.grammar.specs.Gives.{Finds, Gives};
ghost use Rattle.imap_command.specs.Sets.{end_text, set_end, set_part, set};

use grammar::{
    Class, Digit, Only, Production, ReadError, Stop, begins, byte_of, number_of, put_decimal,
    put_several, several_of,
};
use mail_message::{SetEnd, SetPart, SetParts};
use mur_base::{Bytes, Memory};
use std::alloc::Global;

/// The greatest number of a message.
const NUMBER_MOST: u64 = 4_294_967_295;

/// What a set begins with.
#[derive(Clone, Copy)]
pub struct SetStart;

impl Class for SetStart {
    ghost use Rattle.imap_command.specs.Sets.{is_set_start};

    ghost test = { λ _. is_set_start };

    fn holds(&self, byte: u8) -> bool {
        byte == b'*' || Digit.holds(byte)
    }
}

/// Reads seq-number.
fn set_end_of(bytes: &[u8]) -> Result<(SetEnd, &[u8]), Stop>
    ensures { Finds (λ x. (x.0, x.1.now)) result (set_end.part.at bytes.now) }
{
    if begins(&Only(b'*'), bytes) {
        let rest = byte_of(b'*', bytes)?;
        Ok((SetEnd::Last, rest))
    } else {
        let (number, rest) = number_of(false, NUMBER_MOST, bytes)?;
        Ok((SetEnd::Number(number as u32), rest))
    }
}

/// Prints seq-number.
fn put_set_end(end: SetEnd, out: &mut Bytes) -> Result<(), Memory>
    ensures { OnOk result (out.new ≡ out.old ++ end_text end) }
{
    match end {
        SetEnd::Number(number) => put_decimal(u64::from(number), out),
        SetEnd::Last => out.push(b'*'),
    }
}

/// seq-number or seq-range.
#[derive(Clone, Copy)]
struct SetPartForm;

impl Production for SetPartForm {
    type Value = SetPart;

    ghost form = { λ _. set_part };

    fn read<'a>(&self, _alloc: Global, bytes: &'a [u8]) -> Result<(SetPart, &'a [u8]), ReadError> {
        let (one, rest) = set_end_of(bytes)?;
        if begins(&Only(b':'), rest) {
            let rest = byte_of(b':', rest)?;
            let (other, rest) = set_end_of(rest)?;
            Ok((SetPart::Range(one, other), rest))
        } else {
            Ok((SetPart::One(one), rest))
        }
    }

    #[tactic(auto, using(std::proofs::lemmas::Grind::common_steps))]
    fn put(&self, value: &SetPart, out: &mut Bytes) -> Result<(), Memory> {
        match *value {
            SetPart::One(one) => put_set_end(one, out),
            SetPart::Range(one, other) => {
                put_set_end(one, out)?;
                out.push(b':')?;
                put_set_end(other, out)
            }
        }
    }
}

/// Reads sequence-set.
pub fn set_of(alloc: Global, bytes: &[u8]) -> Result<(SetParts, &[u8]), ReadError>
    ensures { Gives (λ x. (x.0, x.1.now)) result (set.part.at bytes.now) }
{
    several_of(alloc, b',', &SetPartForm, bytes)
}

/// Prints sequence-set.
pub fn put_set(parts: &SetParts, out: &mut Bytes) -> Result<(), Memory>
    ensures { OnOk result (out.new ≡ out.old ++ set.text parts.now) }
{
    put_several(b',', &SetPartForm, parts.as_slice(), out)
}
