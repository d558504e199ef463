//! Worked cases of what no client can see of the lowest crates of IMAP: `case_imap FILE ..`. It prints how many cases of each file passed,
//! or ends with status 1 at the first one that doesn't.
//!
//! The kinds of cases: `frames` takes pieces of a connection, `fed` takes them one by one; `command` takes a frame; `reply` takes a tag and
//! what no command is told yet. The first lines of each file say more.
#![tactic(auto)]

mod command;
mod reply;
mod wire;

use anyhow::Result;
use case_base::{Cases, Fault, tell_all};
use mur_base::Bytes;
use std::alloc::Global;

/// The kinds of cases of IMAP.
struct Kinds;

impl Cases for Kinds {
    fn put(&self, alloc: Global, fields: &[&str], out: &mut Bytes) -> Result<(), Fault> {
        match fields {
            ["frames", pieces @ ..] => wire::put_frames(alloc, pieces, out),
            ["fed", pieces @ ..] => wire::put_fed(alloc, pieces, out),
            ["command", frame] => command::put_command(alloc, frame, out),
            ["reply", tag, told @ ..] => reply::put_reply(alloc, tag, told, out),
            _ => Err(Fault::Unreadable("no such kind of case")),
        }
    }
}

fn main(rt: HostRuntime) -> Result<()> {
    tell_all(&rt, &Kinds, "case_imap FILE ..")
}
