// Numbers as decimal text.
ghost use Rattle.std.specs.Prelude.{◌≡◌, ◌++◌, OnOk, OnErr, Some, decimal};
ghost use Rattle.mur_base.specs.Number.{number_of, with_digit};

use crate::list::Bytes;
use crate::memory::Memory;
use itoa::Buffer;

/// The number that a text of digits writes. `None` exactly where the text is empty, has a byte that is no digit,
/// or passes 64 bits. Leading zeros are taken.
#[tactic(auto, using(crate::proofs::ReadDigits::by_reading), unfolding(crate::proofs::ReadDigits::read_behind))]
pub fn read_number(text: &[u8]) -> Option<u64>
    ensures { result ≡ number_of text.now }
{
    if text.is_empty() {
        return None;
    }
    let mut number = 0;
    for byte in text {
        number = with_digit(number, *byte)?;
    }
    Some(number)
}

#[tactic(auto, unfolding(crate::specs::Number::with_digit, crate::specs::Number::is_digit))]
fn with_digit(number: u64, byte: u8) -> Option<u64>
    ensures { result ≡ with_digit number byte }
{
    if !byte.is_ascii_digit() {
        return None;
    }
    number.checked_mul(10)?.checked_add(u64::from(byte - b'0'))
}

/// Writes a number in decimal without leading zeros, which `read_number` reads back; for want of memory the text stays.
pub fn put_number(n: u64, out: &mut Bytes) -> Result<(), Memory>
    ensures ok { OnOk result (out.new ≡ out.old ++ decimal n) }
    ensures err { OnErr result (out.new ≡ out.old) }
    ensures read_back { number_of (decimal n) ≡ Some n }
{
    let mut buffer = Buffer::new();
    out.extend_from_slice(buffer.format(n).as_bytes())
}
