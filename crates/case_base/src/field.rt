// The bytes and numbers that fields write, and the fields that are printed.
use crate::fault::Fault;
use mur_base::{Bytes, Memory, read_number};
use schedule_text::{put_text, read_text};
use std::alloc::Global;
use std::fmt::Debug;

/// The texts between the separators of a text.
pub fn parts_of<'a>(alloc: Global, text: &'a str, separator: &str) -> Result<Vec<&'a str>, Memory> {
    let mut parts = Vec::new(alloc);
    for part in text.split(separator) {
        parts.push(part)?;
    }
    Ok(parts)
}

/// The bytes that a field writes.
pub fn bytes_of(alloc: Global, field: &str) -> Result<Bytes, Fault> {
    match read_text(alloc, field.as_bytes())? {
        Some(bytes) => Ok(bytes),
        None => Err(Fault::Unreadable("no such escape")),
    }
}

/// The number that a field writes.
pub fn number_of(field: &str) -> Result<u32, Fault> {
    match u32::try_from(wide_number_of(field)?) {
        Ok(number) => Ok(number),
        Err(_) => Err(Fault::Unreadable("too large a number")),
    }
}

/// The number of at most 64 bits that a field writes.
pub fn wide_number_of(field: &str) -> Result<u64, Fault> {
    match read_number(field.as_bytes()) {
        Some(number) => Ok(number),
        None => Err(Fault::Unreadable("no number")),
    }
}

/// Prints bytes as the next field.
pub fn put_field(bytes: &[u8], out: &mut Bytes) -> Result<(), Memory> {
    if !out.is_empty() {
        out.extend_from_slice(b" | ")?;
    }
    put_text(bytes, out)
}

/// Prints a value as the next field, as `{:?}` does.
pub fn put_value<T: Debug>(alloc: Global, value: &T, out: &mut Bytes) -> Result<(), Memory> {
    put_field(format!(in alloc; "{value:?}")?.as_bytes(), out)
}
