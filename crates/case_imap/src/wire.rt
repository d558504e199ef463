// The pieces of a connection, and its frames.
use case_base::{Fault, bytes_of, put_field, put_value};
use imap_wire::{Frame, FrameFault, Framer, frames};
use mur_base::{Bytes, Items, Memory};
use std::alloc::Global;

/// Prints the frames of pieces.
pub fn put_frames(alloc: Global, fields: &[&str], out: &mut Bytes) -> Result<(), Fault> {
    let pieces = pieces_of(alloc, fields)?;
    Ok(put_frames_of(alloc, pieces.as_slice(), out)?)
}

fn pieces_of(alloc: Global, fields: &[&str]) -> Result<Items<Bytes>, Fault> {
    let mut pieces = Items::new(alloc);
    for field in fields {
        pieces.push(bytes_of(alloc, field)?)?;
    }
    Ok(pieces)
}

fn put_frames_of(alloc: Global, pieces: &[Bytes], out: &mut Bytes) -> Result<(), Memory> {
    for frame in frames(alloc, pieces)?.as_slice() {
        put_frame(alloc, frame, out)?;
    }
    Ok(())
}

/// Feeds pieces one by one. Prints for each how many of its bytes were taken, and the frame that ended with them.
pub fn put_fed(alloc: Global, fields: &[&str], out: &mut Bytes) -> Result<(), Fault> {
    let pieces = pieces_of(alloc, fields)?;
    Ok(put_each(alloc, pieces.as_slice(), out)?)
}

fn put_each(alloc: Global, pieces: &[Bytes], out: &mut Bytes) -> Result<(), Memory> {
    let mut framer = Framer::new(alloc);
    for piece in pieces {
        feed(alloc, &mut framer, piece.as_slice(), out)?;
    }
    put_counts(alloc, &framer, out)
}

fn feed(alloc: Global, framer: &mut Framer, piece: &[u8], out: &mut Bytes) -> Result<(), Memory> {
    let (frame, taken) = framer.feed(piece)?;
    put_taken(alloc, &frame, taken, out)
}

fn put_taken(
    alloc: Global,
    frame: &Option<Frame>,
    taken: usize,
    out: &mut Bytes,
) -> Result<(), Memory> {
    put_value(alloc, &taken, out)?;
    match frame {
        Some(frame) => put_frame(alloc, frame, out),
        None => Ok(()),
    }
}

/// Prints how many bytes a framer took and copied, whether in fewer moves than bytes; and whether it takes no more.
fn put_counts(alloc: Global, framer: &Framer, out: &mut Bytes) -> Result<(), Memory> {
    let tally = framer.tally();
    let counts = format!(in alloc; "taken {} copied {}", tally.taken, tally.copied)?;
    put_field(counts.as_bytes(), out)?;
    if framer.moves() < tally.taken {
        put_field(b"in bulk", out)?;
    }
    if framer.spent() {
        put_field(b"spent", out)?;
    }
    Ok(())
}

fn put_frame(alloc: Global, frame: &Frame, out: &mut Bytes) -> Result<(), Memory> {
    match frame {
        Frame::Whole(bytes) => put_told(b"whole", bytes.as_slice(), out),
        Frame::NeedLiteral(size) => { put_field(format!(in alloc; "need {size}")?.as_bytes(), out) }
        Frame::TooBig(bytes) => put_told(b"too big", bytes.as_slice(), out),
        Frame::Fault(FrameFault::LineTooLong) => put_field(b"line too long", out),
        Frame::Fault(FrameFault::PlusTooLong) => put_field(b"plus too long", out),
    }
}

fn put_told(word: &[u8], bytes: &[u8], out: &mut Bytes) -> Result<(), Memory> {
    put_field(word, out)?;
    put_field(bytes, out)
}
