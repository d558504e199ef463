// Numbers of four bytes, the highest first.
ghost use Rattle.std.specs.Prelude.{◌≡◌, ◌++◌, true, OnOk, IfOk};
ghost use Rattle.grammar.specs.Gives.{Finds, Gives};
ghost use Rattle.node_record.specs.Parts.{number, number_text, small};

use grammar::{Class, Production, ReadError, Stop, byte_of};
use mur_base::{Bytes, Memory};
use std::alloc::Global;

/// Reads a number.
pub fn number_of(bytes: &[u8]) -> Result<(u32, &[u8]), Stop>
    ensures { Finds (λ x. (x.0, x.1.now)) result (number.part.at bytes.now) }
{
    if bytes.len() < 4 {
        return Err(Stop { left: 0 });
    }
    let number = u32::from_be_bytes([bytes[0], bytes[1], bytes[2], bytes[3]]);
    Ok((number, &bytes[4..]))
}

/// Reads a number below 256 of a set.
pub fn small_of<'a, C: Class>(class: &C, bytes: &'a [u8]) -> Result<(u8, &'a [u8]), Stop>
    ensures reads { Finds (λ x. (x.0, x.1.now)) result ((small (C.test class.now)).at bytes.now) }
    ensures passes { IfOk result (λ x. C.test class.now x.0 ≡ true) }
{
    let rest = byte_of(0, bytes)?;
    let rest = byte_of(0, rest)?;
    let rest = byte_of(0, rest)?;
    match rest {
        [number, behind @ ..] if class.holds(*number) => Ok((*number, behind)),
        _ => Err(Stop { left: rest.len() }),
    }
}

/// Puts a number at the end of bytes.
#[tactic(auto, unfolding(crate::specs::Parts::number_text))]
pub fn put_number(number: u32, out: &mut Bytes) -> Result<(), Memory>
    ensures { OnOk result (out.new ≡ out.old ++ number_text number) }
{
    out.extend_from_slice(&number.to_be_bytes())
}

/// Puts the length of a text or a list at the end of bytes.
#[tactic(auto, using(crate::proofs::NumberSteps::number_rest))]
pub fn put_length(len: usize, out: &mut Bytes) -> Result<(), Memory>
    ensures { OnOk result (out.new ≡ out.old ++ number_text len) }
{
    put_number((len % 4_294_967_296) as u32, out)
}

/// Numbers, as members of a list.
#[derive(Clone, Copy)]
pub struct Number;

impl Production for Number {
    type Value = u32;

    ghost form = { λ _. number };

    fn read<'a>(&self, _alloc: Global, bytes: &'a [u8]) -> Result<(u32, &'a [u8]), ReadError> {
        Ok(number_of(bytes)?)
    }

    fn put(&self, value: &u32, out: &mut Bytes) -> Result<(), Memory> {
        put_number(*value, out)
    }
}
