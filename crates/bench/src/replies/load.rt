// The replies that are written.
use mur_base::limits::MESSAGE_LIMIT;
use mur_base::{Bytes, Memory, put_number};
use mur_model::{Parts, ReplyLine, ReplyLines};
use std::alloc::Global;

/// How many messages are told of.
const MESSAGES: u32 = 20_000;

/// What a FETCH tells.
#[derive(Clone, Copy)]
pub enum Load {
    Flags,
    Body,
}

pub static LOADS: [Load; 2] = [Load::Flags, Load::Body];

impl Load {
    pub fn name(self) -> &'static str {
        match self {
            Load::Flags => "FETCH of the flags of 20,000 messages",
            Load::Body => "FETCH of a body of 1 MiB",
        }
    }

    /// Puts the lines.
    pub fn put(self, alloc: Global, lines: &mut ReplyLines) -> Result<(), Memory> {
        match self {
            Load::Flags => put_all_flags(alloc, lines),
            Load::Body => put_body(alloc, lines),
        }
    }
}

fn put_all_flags(alloc: Global, lines: &mut ReplyLines) -> Result<(), Memory> {
    for number in 1..=MESSAGES {
        put_flags(alloc, number, lines)?;
    }
    Ok(())
}

fn put_flags(alloc: Global, number: u32, lines: &mut ReplyLines) -> Result<(), Memory> {
    let mut parts = Parts::new(alloc);
    put_uid(alloc, number, &mut parts)?;
    parts.push(Bytes::from_slice(alloc, b"FLAGS (\\Answered \\Seen)")?)?;
    lines.push(ReplyLine::Fetch(number, parts))
}

fn put_uid(alloc: Global, number: u32, parts: &mut Parts) -> Result<(), Memory> {
    let mut uid = Bytes::from_slice(alloc, b"UID ")?;
    put_number(u64::from(number), &mut uid)?;
    parts.push(uid)
}

fn put_body(alloc: Global, lines: &mut ReplyLines) -> Result<(), Memory> {
    let mut part = Bytes::from_slice(alloc, b"BODY[] {1048576}\r\n")?;
    put_text(&mut part)?;
    let mut parts = Parts::new(alloc);
    parts.push(part)?;
    lines.push(ReplyLine::Fetch(1, parts))
}

fn put_text(part: &mut Bytes) -> Result<(), Memory> {
    for _ in 0..MESSAGE_LIMIT {
        part.push(b'x')?;
    }
    Ok(())
}
