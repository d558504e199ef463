// Calls of a disk that stops.
use crate::image::{image_of, put_bracketed};
use case_base::{Fault, bytes_of, put_field, wide_number_of};
use mur_base::Bytes;
use mur_disk::{Disk, DiskFault, MemDisk, StopDisk, mem_disk, stop_disk};
use std::alloc::Global;

/// Makes calls of a disk, and puts the answers, what is then read and what a crash leaves.
pub fn put(
    alloc: Global,
    image: &str,
    (call, choice): (&str, &str),
    steps: &[&str],
    out: &mut Bytes,
) -> Result<(), Fault> {
    let image = bytes_of(alloc, image)?;
    let mut disk = stop_disk(mem_disk(alloc, image), wide_number_of(call)?);
    for step in steps {
        put_step(alloc, &mut disk, step, out)?;
    }
    put_images(alloc, disk.into_inner(), wide_number_of(choice)?, out)
}

/// Puts the image that is read, and the one that a crash leaves.
fn put_images(alloc: Global, disk: MemDisk, choice: u64, out: &mut Bytes) -> Result<(), Fault> {
    let mut disk = disk;
    put_bracketed(image_of(alloc, &mut disk)?.as_slice(), out)?;
    disk.crash(choice)?;
    Ok(put_bracketed(image_of(alloc, &mut disk)?.as_slice(), out)?)
}

/// Makes calls of a disk, and puts the answers, and whether it has stopped: before the first call and after each.
pub fn put_stops(
    alloc: Global,
    image: &str,
    call: &str,
    steps: &[&str],
    out: &mut Bytes,
) -> Result<(), Fault> {
    let image = bytes_of(alloc, image)?;
    let mut disk = stop_disk(mem_disk(alloc, image), wide_number_of(call)?);
    put_stopped(&disk, out)?;
    for step in steps {
        put_step(alloc, &mut disk, step, out)?;
        put_stopped(&disk, out)?;
    }
    Ok(())
}

fn put_stopped(disk: &StopDisk, out: &mut Bytes) -> Result<(), Fault> {
    Ok(put_field(if disk.stopped() { b"stopped" } else { b"runs" }, out)?)
}

fn put_step(alloc: Global, disk: &mut StopDisk, step: &str, out: &mut Bytes) -> Result<(), Fault> {
    let (word, rest) = step.split_once(' ').unwrap_or((step, ""));
    match word {
        "write" => put_write(alloc, disk, rest, out),
        "cut" => put_cut(disk, wide_number_of(rest)?, out),
        "sync" => put_answer(disk.sync(), out),
        _ => Err(Fault::Unreadable("no such step")),
    }
}

fn put_write(alloc: Global, disk: &mut StopDisk, rest: &str, out: &mut Bytes) -> Result<(), Fault> {
    let (at, piece) = rest.split_once(' ').unwrap_or((rest, ""));
    let at = wide_number_of(at)?;
    let piece = bytes_of(alloc, piece)?;
    match disk.len() {
        Ok(len) if at <= len => put_answer(disk.write_at(at, piece.as_slice()), out),
        Ok(_) => Err(Fault::Unreadable("a place past the end")),
        Err(fault) => put_answer(Err(fault), out),
    }
}

fn put_cut(disk: &mut StopDisk, to: u64, out: &mut Bytes) -> Result<(), Fault> {
    match disk.len() {
        Ok(len) if to <= len => put_answer(disk.cut(to), out),
        Ok(_) => Err(Fault::Unreadable("a length past the end")),
        Err(fault) => put_answer(Err(fault), out),
    }
}

fn put_answer(answer: Result<(), DiskFault>, out: &mut Bytes) -> Result<(), Fault> {
    match answer {
        Ok(()) => Ok(put_field(b"ok", out)?),
        Err(DiskFault::Failed) => Ok(put_field(b"failed", out)?),
        Err(DiskFault::Memory) => Err(Fault::Memory),
    }
}
