// What the benches are made of: bytes, flags and dates.
use crate::fault::Fault;
use mail_message::{DateText, FlagName, FlagSet, SystemFlag, date};
use mur_base::Memory;
use std::alloc::Global;

/// Bytes of any length: a front, a text so many times, and a back.
#[derive(Clone, Copy)]
pub struct Filled {
    pub front: &'static [u8],
    pub text: &'static [u8],
    pub count: usize,
    pub back: &'static [u8],
}

impl Filled {
    /// Puts the bytes behind others.
    pub fn put(&self, bytes: &mut Vec<u8>) -> Result<(), Memory> {
        bytes.extend_from_slice(self.front)?;
        repeat(self.text, self.count, bytes)?;
        bytes.extend_from_slice(self.back)?;
        Ok(())
    }
}

/// Puts a text so many times behind other bytes.
pub fn repeat(text: &[u8], count: usize, bytes: &mut Vec<u8>) -> Result<(), Memory> {
    for _ in 0..count {
        bytes.extend_from_slice(text)?;
    }
    Ok(())
}

/// Adds a flag.
pub fn set_flag(alloc: Global, flags: &mut FlagSet, flag: SystemFlag) -> Result<(), Fault> {
    match flags.with(alloc, &FlagName::System(flag)) {
        Ok(more) => *flags = more,
        Err(_) => return Err(Fault::Flags),
    }
    Ok(())
}

/// The date that a text is.
pub fn read_date(text: &[u8]) -> Result<DateText, Fault> {
    match date(text) {
        Some(date) => Ok(date),
        None => Err(Fault::Date),
    }
}
