// A connection's bytes, taken piece by piece.
ghost use Rattle.std.specs.Prelude.{◌≡◌, ◌<◌, ◌≤◌, ◌*◌, ◌++◌, [], List, ℕ, length, take};
ghost use Rattle.std.specs.Prelude.{IfOk, OnErr, OnOk, IsSome, IsNone, is_none, IfSome, None};

use crate::begun::Begun;
use crate::frame::Frame;
use crate::tally::Tally;
use mur_base::{Bytes, Items, Memory};
use std::alloc::Global;
use std::marker::Model;

/// Cuts the bytes of one connection into frames, in whatever pieces they come.
///
/// Contracts see the bytes of the command that has begun, or `None` once the framer is spent: after a fault, and
/// after want of memory; and how many bytes were taken and copied, in how many moves. `past` are all bytes of the
/// connection before the call.
#[derive(Drop)]
pub struct Framer {
    alloc: Global,
    begun: Begun,
}

impl Model for Framer {
    ghost use Rattle.imap_wire.specs.Feeding.{Progress};
    ghost use Rattle.imap_wire.specs.Begun.{state_of};
    ghost use Rattle.imap_wire.specs.Steps.{begun_bytes, IsReached};

    ghost Value = { Progress };

    ghost view = { λ framer. record { begun = begun_bytes (state_of framer.begun); tally = framer.begun.kept.tally; moves = framer.begun.kept.moves } };

    ghost invariant = { λ framer. IsReached (state_of framer.begun) };
}

impl Framer {
    ghost use Rattle.imap_wire.specs.Frames.{begun, frames as frames_of};
    ghost use Rattle.imap_wire.specs.Feeding.{GivesFrame, Leaves};
    ghost use Rattle.imap_wire.specs.Tally.{no_tally, fed as tally_fed, IsFedPart};
    ghost use Rattle.imap_wire.specs.Bulk.{IsInBulk};

    /// The framer of a new connection. It takes no memory until bytes come.
    pub fn new(alloc: Global) -> Framer
        ensures begun { result.begun ≡ begun [] }
        ensures tally { result.tally ≡ no_tally }
        ensures moves { result.moves ≡ 0 }
    {
        Framer {
            alloc,
            begun: Begun::new(alloc),
        }
    }

    /// Whether no byte is taken any more.
    pub fn spent(&self) -> bool
        ensures { result ≡ is_none self.now.begun }
    {
        self.begun.spent
    }

    /// How many bytes of the connection were taken, and how many were copied for it: none more than twice.
    pub fn tally(&self) -> Tally
        ensures tally { result ≡ self.now.tally }
        ensures twice { result.copied ≤ 2 * result.taken }
    {
        self.begun.kept.tally()
    }

    /// How many moves were made: each copy of bytes is one, however many they are, and each search for an LF. The
    /// count stands still at the largest number of 64 bits.
    pub fn moves(&self) -> u64
        ensures { result ≡ self.now.moves }
    {
        self.begun.kept.moves
    }

    /// Takes bytes of the piece up to the end of the next frame, or all where none ends in it, and says how many.
    pub fn feed(&mut self, piece: &[u8]) -> Result<(Option<Frame>, usize), Memory>
        ensures frame { IfOk result (λ fed. IsSome self.old.begun → (past : List ℕ) → begun past ≡ self.old.begun
            → GivesFrame past piece.now fed.0 fed.1) }
        ensures after { IfOk result (λ fed. (past : List ℕ) → begun past ≡ self.old.begun
            → begun (past ++ take fed.1 piece.now) ≡ self.new.begun) }
        ensures leaves { IfOk result (λ fed. IfSome fed.0 (λ frame. Leaves frame self.new.begun)) }
        // There are such bytes: those of the command that has begun, if nothing else came.
        ensures own { IfSome self.old.begun (λ bytes. begun bytes ≡ self.old.begun) }
        ensures within { IfOk result (λ fed. fed.1 ≤ length piece.now) }
        // A framer that isn't spent gets on.
        ensures some { IfOk result (λ fed. IsSome self.old.begun → 0 < length piece.now → 0 < fed.1) }
        ensures spent { IsNone self.old.begun → (result ≡ Ok (None, 0)) × IsNone self.new.begun }
        ensures memory { OnErr result (IsNone self.new.begun) }
        // Each byte is copied as it comes, and once more into its frame.
        ensures tally { IfOk result (λ fed. self.new.tally ≡ tally_fed self.old.tally fed.0 fed.1) }
        ensures part { OnErr result (IsFedPart self.old.tally (length piece.now) self.new.tally) }
        // Few moves: by the lines, their literals and the blocks that these bytes fill.
        ensures bulk { IfOk result (λ fed. IsInBulk self.old.begun (take fed.1 piece.now) fed.0 self.old.moves self.new.moves) }
        ensures bulk_part { OnErr result (IsInBulk self.old.begun piece.now None self.old.moves self.new.moves) }
    {
        if self.begun.spent {
            return Ok((None, 0));
        }
        match self.begun.take(self.alloc, piece) {
            Ok(fed) => Ok(fed),
            Err(memory) => {
                self.begun.spent = true;
                Err(memory)
            }
        }
    }

    /// Takes a whole piece and puts the frames that end in it behind those of the bytes before it.
    pub fn feed_all(&mut self, piece: &[u8], frames: &mut Items<Frame>) -> Result<(), Memory>
        ensures frames { OnOk result ((past : List ℕ) → begun past ≡ self.old.begun → frames.old ≡ frames_of past
            → frames.new ≡ frames_of (past ++ piece.now)) }
        ensures after { OnOk result ((past : List ℕ) → begun past ≡ self.old.begun
            → begun (past ++ piece.now) ≡ self.new.begun) }
    {
        let mut taken = 0;
        while taken < piece.len() && !self.spent() {
            let (frame, more) = self.feed(&piece[taken..])?;
            taken += more;
            if let Some(frame) = frame {
                frames.push(frame)?;
            }
        }
        Ok(())
    }
}

ghost use Rattle.imap_wire.specs.Frames.{frames as frames_of};
ghost use Rattle.std.specs.List.{concat};

/// The frames of a connection whose bytes come in these pieces: however they are cut, those of the pieces joined.
pub fn frames(alloc: Global, pieces: &[Bytes]) -> Result<Items<Frame>, Memory>
    ensures { IfOk result (λ all. all ≡ frames_of (concat pieces.now)) }
{
    let mut framer = Framer::new(alloc);
    let mut frames = Items::new(alloc);
    for piece in pieces {
        framer.feed_all(piece.as_slice(), &mut frames)?;
    }
    Ok(frames)
}
