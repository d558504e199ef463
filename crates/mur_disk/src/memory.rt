// A disk in memory.
ghost use Rattle.std.specs.Prelude.{◌≡◌, ◌<◌, ◌^◌, length, true};
ghost use Rattle.std.proofs.Common.{refl, inr};
ghost use Rattle.mur_disk.specs.Memory.{synced_of, calls_of, ReadsDone, MayLeave, LeftSince, DiskGoesOn, only_now};

use crate::disk::Disk;
use crate::fault::DiskFault;
use crate::held::Held;
use crate::image::Image;
use crate::past::Past;
use mur_base::{Bytes, Memory};
use std::alloc::Global;

/// A disk in memory. It keeps the calls since its last sync, each with what undoes it, so that a crash can tear them.
///
/// It never fails, and it tells its content: a crash may leave whatever tears its pending calls.
#[derive(Drop)]
pub struct MemDisk {
    alloc: Global,
    held: Held,
    past: Past,
    ghost fits: { length held.bytes < 2 ^ 64 },
    ghost reads: { ReadsDone held },
    ghost reads_one: { ∥ MayLeave held held.bytes ∥₁ },
}

impl MemDisk {
    ghost use Rattle.std.specs.Prelude.{OnOk, OnErr};
    ghost use Rattle.mur_disk.specs.Choice.{chosen};
    ghost use Rattle.mur_disk.specs.Crash.{NoMore, Only};
    ghost use Rattle.mur_disk.specs.Memory.{IsStill};
    ghost use Rattle.mur_disk.specs.Disks.{held_of};

    // A disk with these bytes, and nothing pending.
    pub(crate) fn new(alloc: Global, image: Bytes) -> MemDisk
        ensures { IsStill image (held_of result) }
    {
        MemDisk {
            alloc,
            held: Held::still(alloc, Image::new(image)),
            past: Past::new(),
        }
    }

    /// Crashes: the disk has the image of the choice, and nothing is pending. For want of memory it stays as it was.
    ///
    /// The first pending call has the lowest two bits of the choice, the next call the next two. A write has for 0 written
    /// nothing, for 1 all, for 2 the first half of its bytes, rounded down, and for 3 as many bytes 0xFF. A cut has cut for 1,
    /// else not. Calls after the thirty-second have done nothing.
    #[tactic(auto, using(crate::proofs::Done::leaves_still))]
    pub fn crash(&mut self, choice: u64) -> Result<(), Memory>
        ensures ok { OnOk result (IsStill (chosen choice (calls_of (held_of self.old)) (synced_of (held_of self.old))) (held_of self.new)) }
        ensures durable { OnOk result (Only self.new.held.bytes (MayLeave self.new.held)) }
        ensures err { OnErr result (held_of self.new ≡ held_of self.old) }
    {
        let image = self.held.crashed(self.alloc, choice)?;
        let past = self.past.then(&self.held);
        self.held = Held::still(self.alloc, image);
        self.past = past;
        Ok(())
    }

    // Makes the pending calls durable: what a sync does.
    pub(crate) fn settle(&mut self)
        ensures still { IsStill self.old.held.bytes self.new.held }
        ensures seen { self.new.held.bytes ≡ self.old.held.bytes }
        ensures durable { Only self.old.held.bytes (MayLeave self.new.held) }
        ensures crash { NoMore (MayLeave self.old.held) (MayLeave self.new.held) }
        ensures time { DiskGoesOn self.old.past.moments self.old.held self.new.past.moments self.new.held }
    {
        let past = self.past.then(&self.held);
        self.held.settle(self.alloc);
        self.past = past;
    }
}

impl Disk for MemDisk {
    ghost use Rattle.std.specs.Prelude.{◌+◌, ◌≤◌, max, take, drop, IfOk, OnOk, OnErr, IsOk};
    ghost use Rattle.mur_disk.specs.Calls.{Wrote, CutTo, Holds};
    ghost use Rattle.mur_disk.specs.Crash.{IsTornBy, CrashesFollow, NoMore, Only};
    ghost use Rattle.mur_disk.specs.Counts.{HasDiskCause};
    ghost use Rattle.mur_disk.specs.Memory.{DidCall, IsStill};

    ghost tells = { λ _. true };

    ghost seen = { λ disk. disk.held.bytes };

    ghost may_leave = { λ disk. MayLeave disk.held };

    ghost moment = { λ disk. length disk.past.moments };

    ghost left_since = { λ disk. LeftSince disk.past.moments disk.held };

    ghost size = { λ disk. length disk.held.bytes };

    ghost faults = { λ _. 0 };

    ghost is_size = { λ disk told. refl };

    ghost bounded = { λ disk. disk.fits };

    ghost reads_one = { λ disk told. disk.reads_one };

    ghost counts_now = { λ disk t image told le now. inr now };

    ghost only_now = { λ disk image told left. only_now disk.past.moments disk.held image left };

    fn len(&mut self) -> Result<u64, DiskFault>
        ensures length { IfOk result (λ n. n ≡ length self.old.held.bytes) }
        ensures size { length self.new.held.bytes ≡ length self.old.held.bytes }
        ensures seen { self.new.held.bytes ≡ self.old.held.bytes }
        ensures crash { NoMore (MayLeave self.old.held) (MayLeave self.new.held) }
        ensures time { DiskGoesOn self.old.past.moments self.old.held self.new.past.moments self.new.held }
        ensures ok { IsOk result }
        ensures same { self.new ≡ self.old }
    {
        Ok(self.held.bytes.as_slice().len() as u64)
    }

    fn read_at(&mut self, at: u64, buf: &mut [u8]) -> Result<(), DiskFault>
        requires { at + length buf.old ≤ length self.old.held.bytes }
        ensures bytes { OnOk result (buf.new ≡ take (length buf.old) (drop at self.old.held.bytes)) }
        ensures size { length self.new.held.bytes ≡ length self.old.held.bytes }
        ensures seen { self.new.held.bytes ≡ self.old.held.bytes }
        ensures crash { NoMore (MayLeave self.old.held) (MayLeave self.new.held) }
        ensures time { DiskGoesOn self.old.past.moments self.old.held self.new.past.moments self.new.held }
        ensures ok { IsOk result }
        ensures same { self.new ≡ self.old }
    {
        let at = at as usize;
        let bytes = self.held.bytes.as_slice();
        buf.copy_from_slice(&bytes[at..at + buf.len()]);
        Ok(())
    }

    fn write_at(&mut self, at: u64, piece: &[u8]) -> Result<(), DiskFault>
        requires { at ≤ length self.old.held.bytes }
        ensures written { OnOk result (Holds self.old.held.bytes at piece.now self.new.held.bytes) }
        ensures size { OnOk result (length self.new.held.bytes ≡ max (length self.old.held.bytes) (at + length piece.now)) }
        ensures crash { CrashesFollow (IsTornBy (Wrote at piece.now)) (MayLeave self.old.held) (MayLeave self.new.held) }
        ensures time { DiskGoesOn self.old.past.moments self.old.held self.new.past.moments self.new.held }
        ensures cause { HasDiskCause 0 0 result }

        // Exactly this call is pending from now on; for want of memory nothing changes.
        ensures did { OnOk result (DidCall (Wrote at piece.now) self.old.held self.new.held) }
        ensures err { OnErr result (self.new.held ≡ self.old.held) }
    {
        let past = self.past.then(&self.held);
        self.held.write(self.alloc, at as usize, piece)?;
        self.past = past;
        Ok(())
    }

    fn cut(&mut self, len: u64) -> Result<(), DiskFault>
        requires { len ≤ length self.old.held.bytes }
        ensures cut { OnOk result (self.new.held.bytes ≡ take len self.old.held.bytes) }
        ensures size { OnOk result (length self.new.held.bytes ≡ len) }
        ensures crash { CrashesFollow (IsTornBy (CutTo len)) (MayLeave self.old.held) (MayLeave self.new.held) }
        ensures time { DiskGoesOn self.old.past.moments self.old.held self.new.past.moments self.new.held }
        ensures cause { HasDiskCause 0 0 result }

        // Exactly this call is pending from now on; for want of memory nothing changes.
        ensures did { OnOk result (DidCall (CutTo len) self.old.held self.new.held) }
        ensures err { OnErr result (self.new.held ≡ self.old.held) }
    {
        let past = self.past.then(&self.held);
        self.held.cut(self.alloc, len as usize)?;
        self.past = past;
        Ok(())
    }

    fn sync(&mut self) -> Result<(), DiskFault>
        ensures durable { OnOk result (Only self.old.held.bytes (MayLeave self.new.held)) }
        ensures size { length self.new.held.bytes ≡ length self.old.held.bytes }
        ensures seen { self.new.held.bytes ≡ self.old.held.bytes }
        ensures crash { NoMore (MayLeave self.old.held) (MayLeave self.new.held) }
        ensures time { DiskGoesOn self.old.past.moments self.old.held self.new.past.moments self.new.held }
        ensures cause { HasDiskCause 0 0 result }

        // It never fails, and takes no memory.
        ensures ok { IsOk result }
        ensures still { IsStill self.old.held.bytes self.new.held }
    {
        self.settle();
        Ok(())
    }
}
