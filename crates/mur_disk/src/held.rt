// What a disk in memory holds: its bytes, and the calls since the last sync with what undoes each.
ghost use Rattle.std.specs.Prelude.{◌≡◌, ◌≤◌, ◌<◌, ◌^◌, length, IfOk, OnOk, OnErr};
ghost use Rattle.mur_disk.specs.Calls.{Wrote, CutTo};
ghost use Rattle.mur_disk.specs.Choice.{chosen, chosen_call};
ghost use Rattle.mur_disk.specs.Undo.{call_of, undone_call};
ghost use Rattle.mur_disk.specs.Memory.{DidCall, IsStill, synced_of, calls_of};

use crate::image::Image;
use mur_base::{Bytes, Items, Memory};
use std::alloc::Global;

/// A write or a cut that no sync has made durable yet, with what it replaced.
#[derive(Drop)]
pub enum Pending {
    /// `piece` was written at `at`. `replaced` stood there before, and the disk was `len` bytes long.
    Write {
        at: u64,
        piece: Bytes,
        replaced: Bytes,
        len: u64,
    },
    /// The disk was cut to `len` bytes, and lost these.
    Cut {
        len: u64,
        lost: Bytes,
    },
}

/// The bytes that a read gives, and the calls since the last sync, in order.
#[derive(Drop)]
pub struct Held {
    pub bytes: Image,
    pub pending: Items<Pending>,
}

impl Held {
    // These bytes, and no pending call.
    pub(crate) fn still(alloc: Global, bytes: Image) -> Held
        ensures { IsStill bytes result }
    {
        Held {
            bytes,
            pending: Items::new(alloc),
        }
    }

    // Writes the piece; for want of memory nothing changes.
    pub(crate) fn write(&mut self, alloc: Global, at: usize, piece: &[u8]) -> Result<(), Memory>
        requires { at ≤ length self.old.bytes }
        ensures ok { OnOk result (DidCall (Wrote at piece.now) self.old self.new) }
        ensures fits { OnOk result (length self.new.bytes < 2 ^ 64) }
        ensures err { OnErr result (self.new ≡ self.old) }
    {
        let len = self.bytes.as_slice().len();
        let over = piece.len().min(len - at);
        let call = Pending::Write {
            at: at as u64,
            piece: Bytes::from_slice(alloc, piece)?,
            replaced: Bytes::from_slice(alloc, &self.bytes.as_slice()[at..at + over])?,
            len: len as u64,
        };
        self.bytes.extend(&piece[over..])?;
        if let Err(full) = self.pending.push(call) {
            self.bytes.truncate(len);
            return Err(full);
        }
        self.bytes.overwrite(at, &piece[..over]);
        Ok(())
    }

    // Cuts the bytes to a length; for want of memory nothing changes.
    pub(crate) fn cut(&mut self, alloc: Global, len: usize) -> Result<(), Memory>
        requires { len ≤ length self.old.bytes }
        ensures ok { OnOk result (DidCall (CutTo len) self.old self.new) }
        ensures err { OnErr result (self.new ≡ self.old) }
    {
        let call = Pending::Cut {
            len: len as u64,
            lost: Bytes::from_slice(alloc, &self.bytes.as_slice()[len..])?,
        };
        self.pending.push(call)?;
        self.bytes.truncate(len);
        Ok(())
    }

    // Makes the pending calls durable.
    pub(crate) fn settle(&mut self, alloc: Global)
        ensures { IsStill self.old.bytes self.new }
    {
        self.pending = Items::new(alloc);
    }

    // What the last sync left.
    fn synced(&self, alloc: Global) -> Result<Image, Memory>
        ensures { IfOk result (λ image. image ≡ synced_of self.now) }
    {
        let mut image = self.bytes.copy(alloc)?;
        let mut calls = self.pending.as_slice();
        while let Some((call, before)) = calls.split_last() {
            call.undo(&mut image)?;
            calls = before;
        }
        Ok(image)
    }

    /// The image that a crash leaves by a choice: two bits for each pending call.
    pub(crate) fn crashed(&self, alloc: Global, choice: u64) -> Result<Image, Memory>
        ensures { IfOk result (λ image. image ≡ chosen choice (calls_of self.now) (synced_of self.now)) }
    {
        let mut image = self.synced(alloc)?;
        let mut choice = choice;
        for call in self.pending.as_slice() {
            call.tear(alloc, choice % 4, &mut image)?;
            choice /= 4;
        }
        Ok(image)
    }
}

impl Pending {
    // Takes the call back.
    fn undo(&self, image: &mut Image) -> Result<(), Memory>
        ensures { OnOk result (image.new ≡ undone_call self.now image.old) }
    {
        match self {
            Pending::Write {
                at,
                replaced,
                len,
                ..
            } => {
                image.truncate(*len as usize);
                image.write(*at as usize, replaced.as_slice())
            }
            Pending::Cut { len, lost } => image.write(*len as usize, lost.as_slice()),
        }
    }

    // Does as much of the call as this number chooses.
    fn tear(&self, alloc: Global, number: u64, image: &mut Image) -> Result<(), Memory>
        ensures { OnOk result (image.new ≡ chosen_call number (call_of self.now) image.old) }
    {
        match (self, number) {
            (_, 0) => Ok(()),
            (Pending::Write { at, piece, .. }, 1) => image.write(*at as usize, piece.as_slice()),
            (Pending::Write { at, piece, .. }, 2) => {
                let half = piece.len() / 2;
                image.write(*at as usize, &piece.as_slice()[..half])
            }
            (Pending::Write { at, piece, .. }, _) => {
                let ones = vec![in alloc; 0xFFu8; piece.len()]?;
                image.write(*at as usize, &ones)
            }
            (Pending::Cut { len, .. }, 1) => {
                image.truncate(*len as usize);
                Ok(())
            }
            (Pending::Cut { .. }, _) => Ok(()),
        }
    }
}
