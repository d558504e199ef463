// Connections and their lines, byte by byte and cut in two.
use crate::repeated::repeated;
use case_base::{Fault, bytes_of, put_field};
use mupdate_codec::{Cutter, cut};
use mur_base::{Bytes, Items, Memory, put_number};
use std::alloc::Global;

/// Puts the lines of a connection, and how many bytes are left; and whether some way to cut its bytes gives others.
pub fn put_cut(alloc: Global, given: &str, out: &mut Bytes) -> Result<(), Fault> {
    let bytes = bytes_of(alloc, given)?;
    let bytes = bytes.as_slice();
    put_lines(alloc, (bytes, &bytes[bytes.len()..]), out)?;
    for at in 0..bytes.len() {
        put_other(alloc, bytes.split_at(at), out)?;
    }
    if !is_fed_so(alloc, bytes, out.as_slice())? {
        put_field(b"others byte by byte", out)?;
    }
    Ok(())
}

/// Puts how long the lines of a long connection are, and how many bytes are left.
pub fn put_long_cut(alloc: Global, parts: &[&str], out: &mut Bytes) -> Result<(), Fault> {
    Ok(put_lengths(alloc, repeated(alloc, parts)?, out)?)
}

fn put_lengths(alloc: Global, bytes: Bytes, out: &mut Bytes) -> Result<(), Memory> {
    let mut pieces = Items::new(alloc);
    pieces.push(bytes)?;
    let (lines, left) = cut(alloc, pieces.as_slice())?;
    for line in lines.as_slice() {
        put_field(b"", out)?;
        put_number(line.len() as u64, out)?;
    }
    put_left(left.len(), out)
}

/// Puts the lines of two pieces, and how many bytes are left.
fn put_lines(alloc: Global, pieces: (&[u8], &[u8]), out: &mut Bytes) -> Result<(), Memory> {
    let mut both = Items::new(alloc);
    both.push(Bytes::from_slice(alloc, pieces.0)?)?;
    both.push(Bytes::from_slice(alloc, pieces.1)?)?;
    let (lines, left) = cut(alloc, both.as_slice())?;
    for line in lines.as_slice() {
        put_field(line.as_slice(), out)?;
    }
    put_left(left.len(), out)
}

fn put_left(left: usize, out: &mut Bytes) -> Result<(), Memory> {
    put_field(b"left ", out)?;
    put_number(left as u64, out)
}

/// Says so where two pieces give other lines.
fn put_other(alloc: Global, pieces: (&[u8], &[u8]), out: &mut Bytes) -> Result<(), Memory> {
    let mut found = Bytes::new(alloc);
    put_lines(alloc, pieces, &mut found)?;
    if found.as_slice() == out.as_slice() {
        Ok(())
    } else {
        put_field(b"others where it is cut", out)
    }
}

/// Whether bytes that come one by one give these lines.
fn is_fed_so(alloc: Global, bytes: &[u8], wanted: &[u8]) -> Result<bool, Memory> {
    let mut cutter = Cutter::new(alloc);
    let mut found = Bytes::new(alloc);
    for byte in bytes {
        if let (Some(line), _) = cutter.feed(&[*byte])? {
            put_field(line.as_slice(), &mut found)?;
        }
    }
    put_left(cutter.begun().len(), &mut found)?;
    Ok(found.as_slice() == wanted)
}
