//! Worked cases of what no replay shows of a run: `case_run FILE ..`. It prints how many cases of each file passed, or ends with status 1 at
//! the first one that doesn't.
//!
//! The kinds of cases: `configuration` takes a text; `nodes` and `users` take lists of a configuration; `call` takes the words of the
//! program, a schedule, and what a host in memory refuses. The first lines of each file say more.
#![tactic(auto)]

mod call;
mod configuration;
mod lists;

use anyhow::Result;
use case_base::{Cases, Fault, tell_all};
use mur_base::Bytes;
use std::alloc::Global;

/// The kinds of cases of a run.
struct Kinds;

impl Cases for Kinds {
    fn put(&self, alloc: Global, fields: &[&str], out: &mut Bytes) -> Result<(), Fault> {
        match fields {
            ["configuration", text] => configuration::put_configuration(alloc, text, out),
            ["nodes", list] => lists::put_nodes(alloc, list, out),
            ["users", list] => lists::put_users(alloc, list, out),
            ["call", words, schedule, refused] => call::put_ended(
                alloc, words, schedule, refused, out,
            ),
            _ => Err(Fault::Unreadable("no such kind of case")),
        }
    }
}

fn main(rt: HostRuntime) -> Result<()> {
    tell_all(&rt, &Kinds, "case_run FILE ..")
}
