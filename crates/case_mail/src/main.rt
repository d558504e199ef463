//! Worked cases of what no client can see of names, mailboxes, their moves and changes, homes and sessions: `case_mail FILE ..`. It prints how many
//! cases of each file passed, or ends with status 1 at the first one that doesn't. The first lines of each file say what its cases are.
#![tactic(auto)]

mod content;
mod flags;
mod home;
mod line;
mod messages;
mod model;
mod moving;
mod names;
mod operation;
mod outs;
mod session;
mod values;
mod watched;

use anyhow::Result;
use case_base::{Cases, Fault, tell_all};
use mur_base::Bytes;
use std::alloc::Global;

/// The kinds of cases of names, messages, mailboxes and sessions.
struct Kinds;

impl Cases for Kinds {
    fn put(&self, alloc: Global, fields: &[&str], out: &mut Bytes) -> Result<(), Fault> {
        match fields {
            ["home", steps @ ..] => home::put(alloc, steps, out),
            ["session", steps @ ..] => session::put(alloc, steps, out),
            ["model", steps @ ..] => model::put(alloc, steps, out),
            ["move", count, steps @ ..] => moving::put(alloc, count, steps, out),
            ["changes", count, steps @ ..] => watched::put(alloc, count, steps, out),
            ["search", key] => messages::put_found(alloc, key, out),
            ["part", from, count] => messages::put_part(alloc, from, count, out),
            ["without", flags, flag] => flags::put_without(alloc, flags, flag, out),
            ["access list", first, later] => values::put_acl(alloc, first, later, out),
            ["name", kind, text] => names::put_fault(alloc, kind, text, out),
            ["first access list", name] => names::put_first_acl(alloc, name, out),
            ["pattern", pattern, text] => names::put_match(alloc, pattern, text, out),
            ["list", letters] => values::put_list(alloc, letters, out),
            ["queue", letters] => values::put_queue(alloc, letters, out),
            _ => Err(Fault::Unreadable("no such kind of case")),
        }
    }
}

fn main(rt: HostRuntime) -> Result<()> {
    tell_all(&rt, &Kinds, "case_mail FILE ..")
}
