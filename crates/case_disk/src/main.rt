//! Worked cases of disks and journals: `case_disk FILE ..`. It prints how many cases of each file passed, or ends with status 1 at the first one
//! that doesn't.
//!
//! The kinds of cases: `disk` takes calls of a disk, `stopped` tells after each whether it has stopped, `format` makes a journal, `open` takes an
//! image, `append` takes an image and appends to it. The disk stops inside one of its device calls, and a crash then leaves what a number chooses.
//! The first lines of each file say more; `tests/journal.py` writes the files.
#![tactic(auto)]

mod append;
mod disk;
mod image;

use anyhow::Result;
use case_base::{Cases, Fault, tell_all};
use mur_base::Bytes;
use std::alloc::Global;

/// The kinds of cases of disks.
struct Kinds;

impl Cases for Kinds {
    fn put(&self, alloc: Global, fields: &[&str], out: &mut Bytes) -> Result<(), Fault> {
        match fields {
            ["disk", image, call, choice, steps @ ..] => {
                disk::put(alloc, image, (call, choice), steps, out)
            }
            ["stopped", image, call, steps @ ..] => {
                disk::put_stops(alloc, image, call, steps, out)
            }
            ["format", call, choice] => append::put_format(alloc, call, choice, out),
            ["open", image] => image::put_open(alloc, image, out),
            ["append", image, call, choice, steps @ ..] => {
                append::put(alloc, image, (call, choice), steps, out)
            }
            _ => Err(Fault::Unreadable("no such kind of case")),
        }
    }
}

fn main(rt: HostRuntime) -> Result<()> {
    tell_all(&rt, &Kinds, "case_disk FILE ..")
}
