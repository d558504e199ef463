// Bytes in hexadecimal digits.
use case_base::Fault;
use mur_base::Bytes;
use std::alloc::Global;

/// The bytes that pairs of hexadecimal digits write; spaces may stand between them.
pub fn bytes_of(alloc: Global, digits: &str) -> Result<Bytes, Fault> {
    let mut bytes = Bytes::new(alloc);
    let mut high = None;
    for byte in digits.as_bytes() {
        if *byte == b' ' {
            continue;
        }
        let digit = digit_of(*byte)?;
        high = match high {
            None => Some(digit),
            Some(high) => {
                bytes.push(joined(high, digit))?;
                None
            }
        };
    }
    match high {
        None => Ok(bytes),
        Some(_) => Err(Fault::Unreadable("half a byte")),
    }
}

/// The byte of two digits.
fn joined(high: u8, low: u8) -> u8 {
    (high << 4) | low
}

fn digit_of(byte: u8) -> Result<u8, Fault> {
    match char::from(byte).to_digit(16) {
        Some(digit) => Ok((digit % 16) as u8),
        None => Err(Fault::Unreadable("no hexadecimal digit")),
    }
}
