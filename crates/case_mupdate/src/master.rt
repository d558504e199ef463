// Steps of the master.
use crate::outs::put_outs;
use case_base::{Fault, Steps, bytes_of, number_of, put_steps, wide_number_of};
use link_msg::Outs;
use master_core::{Master, Sender};
use mur_base::{Bytes, Items, Location, MailName, Memory, mail_name, node_name};
use node_record::{MasterRecord, RecordFault, encode_master};
use schedule_text::put_text;
use std::alloc::Global;

/// The master of a case.
#[derive(Drop)]
struct Stage {
    master: Master,
}

/// Takes steps of a master, of which the first is its boot, and prints what each gives.
pub fn put(alloc: Global, steps: &[&str], out: &mut Bytes) -> Result<(), Fault> {
    let [entries, steps @ ..] = steps else {
        return Err(Fault::Unreadable("no entries"));
    };
    let entries = entries_of(alloc, entries)?;
    let backends = Items::new(alloc);
    match Master::boot(alloc, node_name(alloc, b"m")?, backends, entries.as_slice()) {
        Ok(master) => put_steps(alloc, &mut Stage { master }, steps, out),
        Err(RecordFault::Bad(at)) => {
            Ok(out.extend_from_slice(format!(in alloc; "bad {at}")?.as_bytes())?)
        }
        Err(RecordFault::Memory) => Err(Fault::Memory),
    }
}

/// The entries that a field writes: `-` for none, `full COUNT` for so many active mailboxes at b1, or the bytes of one.
fn entries_of(alloc: Global, field: &str) -> Result<Items<Bytes>, Fault> {
    let mut entries = Items::new(alloc);
    match field.split_once(' ') {
        Some(("full", count)) => put_active(alloc, number_of(count)?, &mut entries)?,
        Some(("entry", bytes)) => entries.push(bytes_of(alloc, bytes)?)?,
        _ => {}
    }
    Ok(entries)
}

fn put_active(alloc: Global, count: u32, entries: &mut Items<Bytes>) -> Result<(), Fault> {
    for i in 0..count {
        let entry = active(alloc, i)?;
        entries.push(encode_master(alloc, &entry)?)?;
    }
    Ok(())
}

/// An active mailbox at b1, by its number.
fn active(alloc: Global, number: u32) -> Result<MasterRecord, Fault> {
    let name = numbered_name(alloc, number)?;
    let place = place(alloc)?;
    Ok(MasterRecord::Active(name, place, Bytes::new(alloc)))
}

fn numbered_name(alloc: Global, number: u32) -> Result<MailName, Fault> {
    let text = format!(in alloc; "n{number}")?;
    Ok(mail_name(alloc, text.as_bytes())?)
}

fn place(alloc: Global) -> Result<Location, Fault> {
    let server = node_name(alloc, b"b1")?;
    let partition = Bytes::from_slice(alloc, b"p")?;
    Ok(Location { server, partition })
}

/// Takes a step: a connection opens, its bytes come, a sender ends, or a node sends a line.
impl Steps for Stage {
    fn take_step(&mut self, alloc: Global, step: &str, out: &mut Bytes) -> Result<(), Fault> {
        let (word, rest) = step.split_once(' ').unwrap_or((step, ""));
        match word {
            "open" => put_opened(alloc, &mut self.master, rest, out),
            "data" => put_answered(alloc, &mut self.master, rest, out),
            "end" => end(alloc, &mut self.master, rest),
            kind => put_said(alloc, &mut self.master, kind, rest, out),
        }
    }
}

fn put_opened(
    alloc: Global,
    master: &mut Master,
    conn: &str,
    out: &mut Bytes,
) -> Result<(), Fault> {
    let outs = master.connect(alloc, wide_number_of(conn)?)?;
    Ok(put_outs(alloc, outs.as_slice(), out)?)
}

fn put_answered(
    alloc: Global,
    master: &mut Master,
    rest: &str,
    out: &mut Bytes,
) -> Result<(), Fault> {
    let (conn, text) = rest.split_once(' ').unwrap_or((rest, ""));
    let conn = wide_number_of(conn)?;
    let piece = bytes_of(alloc, text)?;
    let outs = master.bytes_in(alloc, conn, piece.as_slice())?;
    Ok(put_outs(alloc, outs.as_slice(), out)?)
}

fn end(alloc: Global, master: &mut Master, rest: &str) -> Result<(), Fault> {
    let (kind, name) = rest.split_once(' ').unwrap_or((rest, ""));
    master.ended(&sender_of(alloc, kind, name)?);
    Ok(())
}

fn put_said(
    alloc: Global,
    master: &mut Master,
    kind: &str,
    rest: &str,
    out: &mut Bytes,
) -> Result<(), Fault> {
    let (name, text) = rest.split_once(' ').unwrap_or((rest, ""));
    let from = sender_of(alloc, kind, name)?;
    put_line(alloc, master, &from, text, out)
}

fn sender_of(alloc: Global, kind: &str, name: &str) -> Result<Sender, Fault> {
    match kind {
        "backend" => Ok(Sender::Backend(node_name(alloc, name.as_bytes())?)),
        "frontend" => Ok(Sender::Frontend(node_name(alloc, name.as_bytes())?)),
        "outside" => Ok(Sender::Outside(wide_number_of(name)?)),
        _ => Err(Fault::Unreadable("no such sender")),
    }
}

/// Prints the bytes of the entry that a line makes, if it makes one, and what goes out.
fn put_line(
    alloc: Global,
    master: &mut Master,
    from: &Sender,
    text: &str,
    out: &mut Bytes,
) -> Result<(), Fault> {
    let line = bytes_of(alloc, text)?;
    let plan = master.plan(alloc, from, line.as_slice())?;
    if let Some(entry) = &plan.entry {
        put_entry(alloc, entry, out)?;
    }
    let outs: Outs = master.settle(plan);
    Ok(put_outs(alloc, outs.as_slice(), out)?)
}

fn put_entry(alloc: Global, entry: &MasterRecord, out: &mut Bytes) -> Result<(), Memory> {
    let bytes = encode_master(alloc, entry)?;
    out.push(b'[')?;
    put_text(bytes.as_slice(), out)?;
    out.extend_from_slice(b"] ")
}
