// Long bytes, which a case writes as what is repeated between what comes before and after.
use case_base::{Fault, bytes_of, number_of};
use mur_base::{Bytes, Memory};
use std::alloc::Global;

/// The bytes that the fields BEFORE, COUNT, TEXT and AFTER write: COUNT times TEXT between BEFORE and AFTER.
pub fn repeated(alloc: Global, parts: &[&str]) -> Result<Bytes, Fault> {
    let [before, count, text, after] = parts else {
        return Err(Fault::Unreadable("before, count, text, after"));
    };
    let mut bytes = bytes_of(alloc, before)?;
    let text = bytes_of(alloc, text)?;
    put_repeated(text.as_slice(), number_of(count)?, &mut bytes)?;
    bytes.extend_from_slice(bytes_of(alloc, after)?.as_slice())?;
    Ok(bytes)
}

fn put_repeated(text: &[u8], count: u32, out: &mut Bytes) -> Result<(), Memory> {
    for _ in 0..count {
        out.extend_from_slice(text)?;
    }
    Ok(())
}
