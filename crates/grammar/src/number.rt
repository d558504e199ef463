// Numbers in decimal digits.
ghost use Rattle.std.specs.Prelude.{◌≡◌, ◌+◌, ◌-◌, ◌*◌, ◌≤◌, true, [], ◌++◌, length, take, drop, min, IfOk, OnOk};
ghost use Rattle.std.specs.Option.{SomeIff};
ghost use Rattle.grammar.specs.Words.{scan, halt};
ghost use Rattle.mur_base.specs.Ascii.{digit_zero};
ghost use Rattle.mur_base.specs.Number.{is_digit};
ghost use Rattle.grammar.specs.Numbers.{number, numerals, value_of, is_next_digit, decimal_text};
ghost use Rattle.std.specs.List.{list_all};
ghost use Rattle.grammar.specs.Part.{exactly};
ghost use Rattle.grammar.specs.Gives.{Finds};

use crate::class::{Class, exactly_of};
use crate::error::Stop;
use mur_base::{Bytes, Memory, put_number};

/// The number with one digit more, where it is at most `most` and no zero stands first that may not.
#[tactic(auto, unfolding(mur_base::specs::Number::is_digit))]
fn with_digit(zeros: bool, most: u64, number: u64, first: bool, byte: u8) -> Option<u64>
    ensures { SomeIff result (is_next_digit zeros most number first byte ≡ true) (10 * number + (byte - digit_zero)) }
{
    if !byte.is_ascii_digit() || (first && !zeros && byte == b'0') {
        return None;
    }
    let next = number.checked_mul(10)?.checked_add(u64::from(byte - b'0'))?;
    if next <= most { Some(next) } else { None }
}

/// The number that the scan of a numeral takes, and how many bytes it takes.
#[tactic(auto, unfolding(mur_base::specs::Number::digits_behind))]
fn numeral_scan(zeros: bool, most: u64, bytes: &[u8]) -> (u64, usize)
    ensures within { result.1 ≤ length bytes.now }
    ensures value { result.0 ≡ value_of (take result.1 bytes.now) }
    ensures begins { (numerals zeros most).begins (take result.1 bytes.now) ≡ true }
    ensures halts { scan (numerals zeros most) [] bytes.now
        ≡ halt ((numerals zeros most).whole (take result.1 bytes.now)) (take result.1 bytes.now) (drop result.1 bytes.now) }
{
    let mut number = 0;
    for (i, byte) in bytes.iter().enumerate() {
        match with_digit(zeros, most, number, i == 0, *byte) {
            Some(next) => number = next,
            None => return (number, i),
        }
    }
    (number, bytes.len())
}

/// Reads a number of at most `most`, in which a zero stands first only where `zeros` is true.
#[tactic(auto, using(crate::proofs::NumberLaw::numeral_small))]
pub fn number_of(zeros: bool, most: u64, bytes: &[u8]) -> Result<(u64, &[u8]), Stop>
    ensures reads { Finds (λ x. (x.0, x.1.now)) result ((number zeros most).at bytes.now) }
    ensures small { IfOk result (λ x. x.0 ≤ most) }
{
    let (number, len) = numeral_scan(zeros, most, bytes);
    if len > 0 {
        Ok((number, &bytes[len..]))
    } else {
        Err(Stop { left: bytes.len() })
    }
}

/// The number that digits stand for, or `most` where it is greater.
#[tactic(auto, unfolding(mur_base::specs::Number::digits_behind, mur_base::specs::Number::is_digit))]
fn number_upto(most: usize, digits: &[u8]) -> usize
    requires { list_all is_digit digits.now ≡ true }
    ensures { result ≡ min (value_of digits.now) most }
{
    let mut number = 0usize;
    for digit in digits {
        number = number
            .saturating_mul(10)
            .saturating_add(usize::from(*digit - b'0'))
            .min(most);
    }
    number
}

/// Reads as many bytes of the set as digits say, which may stand for any number.
#[tactic(auto, using(crate::proofs::ExactlyLaw::exactly_upto))]
pub fn counted_of<'a, C: Class>(
    class: &C,
    digits: &[u8],
    bytes: &'a [u8],
) -> Result<(&'a [u8], &'a [u8]), Stop>
    requires { list_all is_digit digits.now ≡ true }
    ensures { Finds (λ x. (x.0.now, x.1.now)) result ((exactly (C.test class.now) (value_of digits.now)).at bytes.now) }
{
    exactly_of(class, number_upto(bytes.len() + 1, digits), bytes)
}

/// Prints a number in decimal digits.
#[tactic(auto, using(crate::proofs::DecimalLaw::decimal_is_text))]
pub fn put_decimal(n: u64, out: &mut Bytes) -> Result<(), Memory>
    ensures { OnOk result (out.new ≡ out.old ++ decimal_text n) }
{
    put_number(n, out)
}
