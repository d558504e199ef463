// What is read of bytes, and printed of what was read.
use crate::repeated::repeated;
use case_base::{Fault, bytes_of, put_field, wide_number_of};
use mupdate_codec::{
    LineFault, Tag, ask_of, print_command, print_response, read_command, read_response, tag_of,
};
use mur_base::{AskId, Bytes, Memory, put_number};
use std::alloc::Global;

/// Puts how many bytes a command has and what is printed of it, or why none is read.
pub fn put_command(alloc: Global, given: &str, out: &mut Bytes) -> Result<(), Fault> {
    let bytes = bytes_of(alloc, given)?;
    Ok(put_read(command_in(alloc, bytes.as_slice()), out)?)
}

/// Puts how many bytes a response has and what is printed of it, or why none is read.
pub fn put_response(alloc: Global, given: &str, out: &mut Bytes) -> Result<(), Fault> {
    let bytes = bytes_of(alloc, given)?;
    Ok(put_read(response_in(alloc, bytes.as_slice()), out)?)
}

/// Puts how many bytes a long command has and how many are printed of it, or why none is read.
pub fn put_long_command(alloc: Global, parts: &[&str], out: &mut Bytes) -> Result<(), Fault> {
    let bytes = repeated(alloc, parts)?;
    Ok(put_lengths(command_in(alloc, bytes.as_slice()), out)?)
}

/// How many bytes a command has, and what is printed of it.
fn command_in(alloc: Global, bytes: &[u8]) -> Result<(usize, Bytes), LineFault> {
    let (tag, command, used) = read_command(alloc, bytes)?;
    Ok((used, print_command(alloc, &tag, &command)?))
}

/// How many bytes a response has, and what is printed of it.
fn response_in(alloc: Global, bytes: &[u8]) -> Result<(usize, Bytes), LineFault> {
    let (tag, response, used) = read_response(alloc, bytes)?;
    Ok((used, print_response(alloc, &tag, &response)?))
}

fn put_read(read: Result<(usize, Bytes), LineFault>, out: &mut Bytes) -> Result<(), Memory> {
    match read {
        Ok((used, text)) => {
            put_number(used as u64, out)?;
            put_field(text.as_slice(), out)
        }
        Err(fault) => put_fault(fault, out),
    }
}

fn put_lengths(read: Result<(usize, Bytes), LineFault>, out: &mut Bytes) -> Result<(), Memory> {
    match read {
        Ok((used, text)) => {
            put_number(used as u64, out)?;
            put_field(b"", out)?;
            put_number(text.len() as u64, out)
        }
        Err(fault) => put_fault(fault, out),
    }
}

fn put_fault(fault: LineFault, out: &mut Bytes) -> Result<(), Memory> {
    match fault {
        LineFault::More => out.extend_from_slice(b"more"),
        LineFault::Bad(at) => {
            out.extend_from_slice(b"bad ")?;
            put_number(at as u64, out)
        }
        LineFault::Memory => Err(Memory),
    }
}

/// Puts the tag that tells a command of a client.
pub fn put_tag(alloc: Global, conn: &str, command: &str, out: &mut Bytes) -> Result<(), Fault> {
    let (conn, command) = (wide_number_of(conn)?, wide_number_of(command)?);
    match tag_of(alloc, &AskId { conn, command })? {
        Tag::Text(text) => Ok(out.extend_from_slice(text.as_slice())?),
        Tag::Star => Ok(out.push(b'*')?),
    }
}

/// Puts the command of a client that a tag tells, or that it tells none.
pub fn put_ask(alloc: Global, given: &str, out: &mut Bytes) -> Result<(), Fault> {
    match ask_of(&Tag::Text(bytes_of(alloc, given)?)) {
        Some(ask) => {
            put_number(ask.conn, out)?;
            out.push(b'.')?;
            put_number(ask.command, out)?;
            Ok(())
        }
        None => Ok(out.extend_from_slice(b"none")?),
    }
}
