// Images: what a crash leaves, and what is opened of it.
use case_base::{Fault, bytes_of, put_field};
use mur_base::{Bytes, Memory, put_number};
use mur_disk::{Disk, MemDisk, mem_disk, stop_disk};
use mur_journal::{Journal, OpenFault};
use schedule_text::put_text;
use std::alloc::Global;

/// Puts what is opened of the image that a field writes.
pub fn put_open(alloc: Global, image: &str, out: &mut Bytes) -> Result<(), Fault> {
    put_opened(alloc, bytes_of(alloc, image)?, out)
}

/// Crashes the disk, and puts the image that is left and what is opened of it.
pub fn put_left(alloc: Global, disk: MemDisk, choice: u64, out: &mut Bytes) -> Result<(), Fault> {
    let mut disk = disk;
    disk.crash(choice)?;
    let image = image_of(alloc, &mut disk)?;
    put_bracketed(image.as_slice(), out)?;
    put_opened(alloc, image, out)
}

/// The bytes of a disk.
pub fn image_of(alloc: Global, disk: &mut MemDisk) -> Result<Bytes, Fault> {
    let Ok(len) = disk.len() else {
        return Err(Fault::Unreadable("no length"));
    };
    let mut image = vec![in alloc; 0u8; len as usize]?;
    match disk.read_at(0, &mut image) {
        Ok(()) => Ok(Bytes::from_vec(image)),
        Err(_) => Err(Fault::Unreadable("no bytes")),
    }
}

/// Opens the journal of an image, and puts its entries or the place at which it shows that it's none. The disk would stop inside the first device
/// call.
fn put_opened(alloc: Global, image: Bytes, out: &mut Bytes) -> Result<(), Fault> {
    match Journal::open_on(alloc, stop_disk(mem_disk(alloc, image), 0)) {
        Ok((_, entries)) => Ok(put_entries(entries.as_slice(), out)?),
        Err((_, fault)) => put_fault(fault, out),
    }
}

fn put_entries(entries: &[Bytes], out: &mut Bytes) -> Result<(), Memory> {
    put_field(b"journal", out)?;
    for entry in entries {
        put_bracketed(entry.as_slice(), out)?;
    }
    Ok(())
}

fn put_fault(fault: OpenFault, out: &mut Bytes) -> Result<(), Fault> {
    match fault {
        OpenFault::NotAJournal(at) => {
            put_field(b"none at ", out)?;
            Ok(put_number(at, out)?)
        }
        OpenFault::Disk => Ok(put_field(b"disk", out)?),
        OpenFault::Memory => Err(Fault::Memory),
    }
}

/// Puts bytes as a field in brackets.
pub fn put_bracketed(bytes: &[u8], out: &mut Bytes) -> Result<(), Memory> {
    put_field(b"[", out)?;
    put_text(bytes, out)?;
    out.push(b']')
}
