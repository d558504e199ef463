// Journals that are made and appended to, on a disk that stops.
ghost use Rattle.std.specs.Prelude.{◌≤◌, ◌^◌, All, IfOk, length};

use crate::image::put_left;
use case_base::{Fault, bytes_of, put_field, wide_number_of};
use mur_base::{Bytes, Items};
use mur_disk::{StopDisk, mem_disk, stop_disk};
use mur_journal::{AppendFault, Journal, format};
use std::alloc::Global;

/// The most bytes of an entry.
const LONGEST: usize = 1_073_741_824;

/// Makes a journal on an empty disk, and puts the answer and what a crash leaves.
pub fn put_format(alloc: Global, call: &str, choice: &str, out: &mut Bytes) -> Result<(), Fault> {
    let (call, choice) = (wide_number_of(call)?, wide_number_of(choice)?);
    match format(stop_disk(mem_disk(alloc, Bytes::new(alloc)), call)) {
        Ok(journal) => {
            put_answer(Ok(()), out)?;
            put_left(alloc, journal.into_disk().into_inner(), choice, out)
        }
        Err((disk, fault)) => {
            put_answer(Err(fault), out)?;
            put_left(alloc, disk.into_inner(), choice, out)
        }
    }
}

/// Appends to the journal of an image, and puts the answers and what a crash leaves.
pub fn put(
    alloc: Global,
    image: &str,
    (call, choice): (&str, &str),
    steps: &[&str],
    out: &mut Bytes,
) -> Result<(), Fault> {
    let mut journal = opened(alloc, image, wide_number_of(call)?)?;
    for step in steps {
        put_step(alloc, &mut journal, step, out)?;
    }
    let disk = journal.into_disk().into_inner();
    put_left(alloc, disk, wide_number_of(choice)?, out)
}

/// Opens the journal of an image, on a disk that stops inside the device call of this number.
fn opened(alloc: Global, image: &str, call: u64) -> Result<Journal<StopDisk>, Fault> {
    let image = bytes_of(alloc, image)?;
    match Journal::open_on(alloc, stop_disk(mem_disk(alloc, image), call)) {
        Ok((journal, _)) => Ok(journal),
        Err(_) => Err(Fault::Unreadable("no journal")),
    }
}

fn put_step(
    alloc: Global,
    journal: &mut Journal<StopDisk>,
    step: &str,
    out: &mut Bytes,
) -> Result<(), Fault> {
    match step.split_once(' ') {
        Some(("one", entry)) => {
            let entry = entry_of(alloc, entry)?;
            put_answer(journal.append(alloc, entry.as_slice()), out)
        }
        Some(("all", entries)) => {
            let entries = entries_of(alloc, entries)?;
            if entries.is_empty() {
                return Err(Fault::Unreadable("no entry"));
            }
            put_answer(journal.append_all(alloc, entries.as_slice()), out)
        }
        _ => Err(Fault::Unreadable("no such step")),
    }
}

/// The entries that a text writes, a comma between them.
fn entries_of(alloc: Global, text: &str) -> Result<Items<Bytes>, Fault>
    ensures { IfOk result (λ entries. All (λ entry. length entry ≤ 2 ^ 30) entries) }
{
    let mut entries = Items::new(alloc);
    for entry in text.split(",") {
        entries.push(entry_of(alloc, entry)?)?;
    }
    Ok(entries)
}

/// The entry that a text writes.
fn entry_of(alloc: Global, text: &str) -> Result<Bytes, Fault>
    ensures { IfOk result (λ entry. length entry ≤ 2 ^ 30) }
{
    let entry = bytes_of(alloc, text)?;
    if entry.len() > LONGEST {
        return Err(Fault::Unreadable("too long an entry"));
    }
    Ok(entry)
}

fn put_answer(answer: Result<(), AppendFault>, out: &mut Bytes) -> Result<(), Fault> {
    match answer {
        Ok(()) => Ok(put_field(b"ok", out)?),
        Err(AppendFault::Disk) => Ok(put_field(b"disk", out)?),
        Err(AppendFault::Spent) => Ok(put_field(b"spent", out)?),
        Err(AppendFault::Memory) => Err(Fault::Memory),
    }
}
