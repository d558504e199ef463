// A frontend's replica of the master's table.
use case_base::{Fault, Steps, bytes_of, put_steps};
use feed_core::{FeedFault, Rec, Replica};
use mupdate_codec::{LineFault, MResponse, read_response};
use mur_base::{Bytes, Location, MailName, Memory, mail_name};
use schedule_text::put_text;
use std::alloc::Global;

/// The replica of a case.
#[derive(Drop)]
struct Stage {
    replica: Replica,
}

/// Takes steps of a replica that was told nothing, and prints what each gives.
pub fn put(alloc: Global, steps: &[&str], out: &mut Bytes) -> Result<(), Fault> {
    let mut stage = Stage {
        replica: Replica::new(alloc),
    };
    put_steps(alloc, &mut stage, steps, out)
}

impl Steps for Stage {
    fn take_step(&mut self, alloc: Global, step: &str, out: &mut Bytes) -> Result<(), Fault> {
        let (word, rest) = step.split_once(' ').unwrap_or((step, ""));
        match word {
            "hear" => Ok(self.replica.hear(alloc, bytes_of(alloc, rest)?.as_slice())?),
            "take" => take(&mut self.replica, response_of(alloc, rest)?, out),
            _ => put_told(alloc, &self.replica, word, rest, out),
        }
    }
}

/// Prints what a replica tells.
fn put_told(
    alloc: Global,
    replica: &Replica,
    word: &str,
    rest: &str,
    out: &mut Bytes,
) -> Result<(), Fault> {
    match word {
        "find" => Ok(put_found(replica.find(&mail_name(alloc, rest.as_bytes())?), out)?),
        "above" => {
            let name = mail_name(alloc, rest.as_bytes())?;
            Ok(put_found(replica.nearest_above(alloc, &name)?, out)?)
        }
        "names" => Ok(put_names(replica.names(alloc)?.as_slice(), out)?),
        "whole" => Ok(put_whole(replica.is_whole(), out)?),
        _ => Err(Fault::Unreadable("no such step")),
    }
}

/// The response that a line spells.
fn response_of(alloc: Global, line: &str) -> Result<MResponse, Fault> {
    match read_response(alloc, bytes_of(alloc, line)?.as_slice()) {
        Ok((_tag, response, _used)) => Ok(response),
        Err(LineFault::Memory) => Err(Fault::Memory),
        Err(_) => Err(Fault::Unreadable("no response")),
    }
}

/// Takes a response, and says so if it is refused.
fn take(replica: &mut Replica, response: MResponse, out: &mut Bytes) -> Result<(), Fault> {
    match replica.take(response) {
        Ok(()) => Ok(()),
        Err(FeedFault::NoFeedLine) => Ok(out.extend_from_slice(b"refused")?),
        Err(FeedFault::Memory) => Err(Fault::Memory),
    }
}

fn put_whole(whole: bool, out: &mut Bytes) -> Result<(), Memory> {
    out.extend_from_slice(if whole { b"whole" } else { b"not yet" })
}

fn put_found(found: Option<&Rec>, out: &mut Bytes) -> Result<(), Memory> {
    match found {
        Some(rec) => put_rec(rec, out),
        None => out.extend_from_slice(b"none"),
    }
}

/// Prints a record: whether it is active or reserved, its place, and its access list in brackets if it has one.
fn put_rec(rec: &Rec, out: &mut Bytes) -> Result<(), Memory> {
    out.extend_from_slice(match rec {
        Rec::Active(_, _) => b"active ",
        Rec::Reserved(_, _) => b"reserved ",
    })?;
    put_place(rec.place(), out)?;
    match rec {
        Rec::Active(_, acl) | Rec::Reserved(_, Some(acl)) => put_bracketed(acl.as_slice(), out),
        Rec::Reserved(_, None) => Ok(()),
    }
}

fn put_place(place: &Location, out: &mut Bytes) -> Result<(), Memory> {
    out.extend_from_slice(place.server.as_bytes())?;
    out.push(b'!')?;
    out.extend_from_slice(place.partition.as_slice())
}

fn put_names(names: &[MailName], out: &mut Bytes) -> Result<(), Memory> {
    for name in names {
        put_bracketed(name.as_bytes(), out)?;
    }
    Ok(())
}

fn put_bracketed(bytes: &[u8], out: &mut Bytes) -> Result<(), Memory> {
    out.extend_from_slice(b"[")?;
    put_text(bytes, out)?;
    out.push(b']')
}
