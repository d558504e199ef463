//! Worked cases of entries of disks, of merged logs and of printed schedules: `case_record FILE ..`. It prints how many cases of each file passed, or
//! ends with status 1 at the first one that doesn't.
//!
//! The kinds of cases: `master` and `backend` take the bytes of an entry in hexadecimal digits, `merged` takes logs, `printed` a schedule. The first
//! lines of each file say more.
#![tactic(auto)]

mod backend;
mod fields;
mod hex;
mod master;
mod merged;
mod printed;

use anyhow::Result;
use case_base::{Cases, Fault, put_field, tell_all};
use mur_base::Bytes;
use node_record::{RecordFault, decode_backend, decode_master, encode_backend, encode_master};
use std::alloc::Global;

/// The kinds of cases of entries.
struct Kinds;

impl Cases for Kinds {
    fn put(&self, alloc: Global, fields: &[&str], out: &mut Bytes) -> Result<(), Fault> {
        match fields {
            ["master", digits] => put_master(alloc, hex::bytes_of(alloc, digits)?.as_slice(), out),
            ["backend", digits] => {
                put_backend(alloc, hex::bytes_of(alloc, digits)?.as_slice(), out)
            }
            ["merged", logs @ ..] => merged::put(alloc, logs, out),
            ["printed", schedule] => printed::put(alloc, schedule, out),
            _ => Err(Fault::Unreadable("no such kind of case")),
        }
    }
}

/// Puts what an entry of the master says, or where bytes are none.
fn put_master(alloc: Global, bytes: &[u8], out: &mut Bytes) -> Result<(), Fault> {
    match decode_master(alloc, bytes) {
        Ok(entry) => {
            master::put(&entry, out)?;
            put_other(bytes, encode_master(alloc, &entry)?.as_slice(), out)
        }
        Err(fault) => put_fault(fault, out),
    }
}

/// Puts what an entry of a backend says, or where bytes are none.
fn put_backend(alloc: Global, bytes: &[u8], out: &mut Bytes) -> Result<(), Fault> {
    match decode_backend(alloc, bytes) {
        Ok(entry) => {
            backend::put(&entry, out)?;
            put_other(bytes, encode_backend(alloc, &entry)?.as_slice(), out)
        }
        Err(fault) => put_fault(fault, out),
    }
}

/// Says so where an entry is encoded as other bytes than it was read of.
fn put_other(bytes: &[u8], encoded: &[u8], out: &mut Bytes) -> Result<(), Fault> {
    if bytes != encoded {
        put_field(b"encoded otherwise", out)?;
    }
    Ok(())
}

fn put_fault(fault: RecordFault, out: &mut Bytes) -> Result<(), Fault> {
    match fault {
        RecordFault::Bad(at) => Ok(fields::put_worded(b"bad", at as u64, out)?),
        RecordFault::Memory => Err(Fault::Memory),
    }
}

fn main(rt: HostRuntime) -> Result<()> {
    tell_all(&rt, &Kinds, "case_record FILE ..")
}
