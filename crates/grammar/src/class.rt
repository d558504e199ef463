// Sets of bytes, and readers of bytes of a set.
ghost use Rattle.std.specs.Prelude.{◌≡◌, ℕ, Bool, true, false, take, ◌≤◌, ◌<◌, length, slice_index, Ok};
ghost use Rattle.std.specs.List.{list_all};
ghost use Rattle.grammar.specs.Part.{byte, one_of, starts, exactly, optional, between};
ghost use Rattle.grammar.specs.Gives.{Finds};

use crate::error::Stop;

/// A set of bytes.
pub trait Class {
    /// Whether a byte is in the set.
    ghost test: { Self → ℕ → Bool };

    fn holds(&self, byte: u8) -> bool
        ensures { result ≡ test self.now byte };

    /// How many bytes stand before the first that isn't in the set: one by one, where a set has no faster search.
    fn passing_len(&self, bytes: &[u8]) -> usize
        ensures there { result ≤ length bytes.now }
        ensures passing { list_all (test self.now) (take result bytes.now) ≡ true }
        ensures ends { result < length bytes.now → test self.now (slice_index bytes.now result) ≡ false }
    {
        for (i, byte) in bytes.iter().enumerate() {
            if !self.holds(*byte) {
                return i;
            }
        }
        bytes.len()
    }
}

/// One byte alone.
#[derive(Clone, Copy)]
pub struct Only(pub u8);

impl Class for Only {
    ghost use Rattle.std.specs.Prelude.{◌==◌};

    ghost test = { λ only c. c == only.0 };

    fn holds(&self, byte: u8) -> bool {
        byte == self.0
    }
}

/// The bytes from the one to the other, both included.
#[derive(Clone, Copy)]
pub struct Between(pub u8, pub u8);

impl Class for Between {
    ghost test = { λ ends. between ends.0 ends.1 };

    fn holds(&self, byte: u8) -> bool {
        self.0 <= byte && byte <= self.1
    }
}

/// A decimal digit.
#[derive(Clone, Copy)]
pub struct Digit;

impl Class for Digit {
    ghost use Rattle.mur_base.specs.Number.{is_digit};

    ghost test = { λ _. is_digit };

    #[tactic(auto, unfolding(mur_base::specs::Number::is_digit))]
    fn holds(&self, byte: u8) -> bool {
        byte.is_ascii_digit()
    }
}

/// Whether the bytes begin with one of the set.
pub fn begins<C: Class>(class: &C, bytes: &[u8]) -> bool
    ensures { result ≡ starts (C.test class.now) bytes.now }
{
    match bytes {
        [first, ..] => class.holds(*first),
        [] => false,
    }
}

/// Reads one byte of the set, and gives it and the bytes behind it.
pub fn byte_in<'a, C: Class>(class: &C, bytes: &'a [u8]) -> Result<(u8, &'a [u8]), Stop>
    ensures { Finds (λ x. (x.0, x.1.now)) result ((one_of (C.test class.now)).at bytes.now) }
{
    match bytes {
        [first, rest @ ..] if class.holds(*first) => Ok((*first, rest)),
        _ => Err(Stop { left: bytes.len() }),
    }
}

/// Reads one byte, and gives the bytes behind it.
pub fn byte_of(wanted: u8, bytes: &[u8]) -> Result<&[u8], Stop>
    ensures { Finds (λ rest. (wanted, rest.now)) result ((byte wanted).at bytes.now) }
{
    match bytes {
        [first, rest @ ..] if *first == wanted => Ok(rest),
        _ => Err(Stop { left: bytes.len() }),
    }
}

/// Reads a byte that may be left out, and gives whether it is there and the bytes behind it.
#[tactic(auto, unfolding(crate::specs::Part::optional))]
pub fn optional_of(wanted: u8, bytes: &[u8]) -> (bool, &[u8])
    ensures { (optional wanted).at bytes.now ≡ Ok (result.0, result.1.now) }
{
    match bytes {
        [first, rest @ ..] if *first == wanted => (true, rest),
        _ => (false, bytes),
    }
}

/// How many of the first `most` bytes are of the set, before the first that isn't.
pub fn passing_upto<C: Class>(class: &C, most: usize, bytes: &[u8]) -> usize
    ensures there { result ≤ length bytes.now }
    ensures upto { result ≤ most }
    ensures passing { list_all (C.test class.now) (take result bytes.now) ≡ true }
    ensures ends { result < length bytes.now → result < most → C.test class.now (slice_index bytes.now result) ≡ false }
{
    class.passing_len(&bytes[..most.min(bytes.len())])
}

/// Reads so many bytes of the set, and gives them and the bytes behind them.
#[tactic(auto, using(crate::proofs::ExactlyLaw::exactly_found, crate::proofs::ExactlyLaw::exactly_stops))]
pub fn exactly_of<'a, C: Class>(
    class: &C,
    count: usize,
    bytes: &'a [u8],
) -> Result<(&'a [u8], &'a [u8]), Stop>
    ensures { Finds (λ x. (x.0.now, x.1.now)) result ((exactly (C.test class.now) count).at bytes.now) }
{
    let len = passing_upto(class, count, bytes);
    if len == count {
        Ok(bytes.split_at(count))
    } else {
        Err(Stop {
            left: bytes.len() - len,
        })
    }
}
