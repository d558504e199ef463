// A disk in memory that stops inside a device call, as one whose process is killed there.
ghost use Rattle.std.specs.Prelude.{◌≡◌, ◌+◌, ◌≤◌, ◌↔◌, length, drop, max, take, true, IfOk, OnOk, IsErr, IsTrue};
ghost use Rattle.std.proofs.Common.{refl, inr};
ghost use Rattle.mur_disk.specs.Calls.{Wrote, CutTo, Holds};
ghost use Rattle.mur_disk.specs.Countdowns.{DidCount};
ghost use Rattle.mur_disk.specs.Counts.{HasDiskCause};
ghost use Rattle.mur_disk.specs.Crash.{IsTornBy, CrashesFollow, NoMore, Only};
ghost use Rattle.mur_disk.specs.Memory.{DidCall, MayLeave, LeftSince, DiskGoesOn, only_now};
ghost use Rattle.mur_disk.specs.Stops.{inner_of, has_stopped, IsArmed, DidDevice, Unchanged, WasSynced};

use crate::countdown::Countdown;
use crate::disk::Disk;
use crate::fault::DiskFault;
use crate::memory::MemDisk;

/// A disk in memory that stops inside one of its device calls: `write_at`, `cut` and `sync`. From then on each call fails.
///
/// A write or a cut that it stops inside is pending, so that a crash may tear it. A sync that it stops inside does nothing.
#[derive(Drop)]
pub struct StopDisk {
    inner: MemDisk,
    countdown: Countdown,
}

/// The disk, which stops inside the device call of this number, counted from 0. It takes no memory.
pub fn stop_disk(disk: MemDisk, call: u64) -> StopDisk
    ensures { IsArmed disk call result }
{
    StopDisk {
        inner: disk,
        countdown: Countdown {
            left: call,
            stopped: false,
            faults: 0,
        },
    }
}

impl StopDisk {
    /// Whether it has stopped. It takes no memory.
    pub fn stopped(&self) -> bool
        ensures { result ≡ has_stopped self.now }
    {
        self.countdown.stopped
    }

    /// The disk in it, with what is pending. It takes no memory.
    pub fn into_inner(self) -> MemDisk
        ensures { result ≡ inner_of self }
    {
        self.inner
    }
}

impl Disk for StopDisk {
    ghost tells = { λ _. true };

    ghost seen = { λ disk. disk.inner.held.bytes };

    ghost may_leave = { λ disk. MayLeave disk.inner.held };

    ghost moment = { λ disk. length disk.inner.past.moments };

    ghost left_since = { λ disk. LeftSince disk.inner.past.moments disk.inner.held };

    ghost size = { λ disk. length disk.inner.held.bytes };

    ghost faults = { λ disk. disk.countdown.faults };

    ghost is_size = { λ disk told. refl };

    ghost bounded = { λ disk. disk.inner.fits };

    ghost reads_one = { λ disk told. disk.inner.reads_one };

    ghost counts_now = { λ disk t image told le now. inr now };

    ghost only_now = { λ disk image told left. only_now disk.inner.past.moments disk.inner.held image left };

    fn len(&mut self) -> Result<u64, DiskFault>
        ensures length { IfOk result (λ n. n ≡ length self.old.inner.held.bytes) }
        ensures size { length self.new.inner.held.bytes ≡ length self.old.inner.held.bytes }
        ensures seen { self.new.inner.held.bytes ≡ self.old.inner.held.bytes }
        ensures crash { NoMore (MayLeave self.old.inner.held) (MayLeave self.new.inner.held) }
        ensures time { DiskGoesOn self.old.inner.past.moments self.old.inner.held self.new.inner.past.moments self.new.inner.held }
        ensures cause { HasDiskCause self.old.countdown.faults self.new.countdown.faults result }
        ensures stopped { IsErr result ↔ IsTrue self.old.countdown.stopped }
        ensures inner { self.new.inner ≡ self.old.inner }
        ensures left { self.new.countdown.left ≡ self.old.countdown.left }
        ensures still { self.new.countdown.stopped ≡ self.old.countdown.stopped }
    {
        if self.countdown.stopped {
            self.countdown.fail();
            return Err(DiskFault::Failed);
        }
        self.inner.len()
    }

    fn read_at(&mut self, at: u64, buf: &mut [u8]) -> Result<(), DiskFault>
        requires { at + length buf.old ≤ length self.old.inner.held.bytes }
        ensures bytes { OnOk result (buf.new ≡ take (length buf.old) (drop at self.old.inner.held.bytes)) }
        ensures size { length self.new.inner.held.bytes ≡ length self.old.inner.held.bytes }
        ensures seen { self.new.inner.held.bytes ≡ self.old.inner.held.bytes }
        ensures crash { NoMore (MayLeave self.old.inner.held) (MayLeave self.new.inner.held) }
        ensures time { DiskGoesOn self.old.inner.past.moments self.old.inner.held self.new.inner.past.moments self.new.inner.held }
        ensures cause { HasDiskCause self.old.countdown.faults self.new.countdown.faults result }
        ensures stopped { IsErr result ↔ IsTrue self.old.countdown.stopped }
        ensures inner { self.new.inner ≡ self.old.inner }
        ensures left { self.new.countdown.left ≡ self.old.countdown.left }
        ensures still { self.new.countdown.stopped ≡ self.old.countdown.stopped }
    {
        if self.countdown.stopped {
            self.countdown.fail();
            return Err(DiskFault::Failed);
        }
        self.inner.read_at(at, buf)
    }

    #[tactic(auto, using(crate::proofs::Done::no_write_tears, crate::proofs::Clock::stands_still))]
    fn write_at(&mut self, at: u64, piece: &[u8]) -> Result<(), DiskFault>
        requires { at ≤ length self.old.inner.held.bytes }
        ensures written { OnOk result (Holds self.old.inner.held.bytes at piece.now self.new.inner.held.bytes) }
        ensures size { OnOk result (length self.new.inner.held.bytes ≡ max (length self.old.inner.held.bytes) (at + length piece.now)) }
        ensures crash { CrashesFollow (IsTornBy (Wrote at piece.now)) (MayLeave self.old.inner.held) (MayLeave self.new.inner.held) }
        ensures time { DiskGoesOn self.old.inner.past.moments self.old.inner.held self.new.inner.past.moments self.new.inner.held }
        ensures cause { HasDiskCause self.old.countdown.faults self.new.countdown.faults result }

        ensures counts { DidCount self.old.countdown self.new.countdown result }

        // The call that it stops inside is pending too; a disk in memory is refused for want of memory alone.
        ensures did { DidDevice (DidCall (Wrote at piece.now)) (DidCall (Wrote at piece.now)) self.old self.new result }
    {
        if self.countdown.stopped {
            self.countdown.fail();
            return Err(DiskFault::Failed);
        }
        if self.inner.write_at(at, piece).is_err() {
            return Err(DiskFault::Memory);
        }
        self.countdown.count()?;
        Ok(())
    }

    #[tactic(auto, using(crate::proofs::Done::no_cut_tears, crate::proofs::Clock::stands_still))]
    fn cut(&mut self, len: u64) -> Result<(), DiskFault>
        requires { len ≤ length self.old.inner.held.bytes }
        ensures cut { OnOk result (self.new.inner.held.bytes ≡ take len self.old.inner.held.bytes) }
        ensures size { OnOk result (length self.new.inner.held.bytes ≡ len) }
        ensures crash { CrashesFollow (IsTornBy (CutTo len)) (MayLeave self.old.inner.held) (MayLeave self.new.inner.held) }
        ensures time { DiskGoesOn self.old.inner.past.moments self.old.inner.held self.new.inner.past.moments self.new.inner.held }
        ensures cause { HasDiskCause self.old.countdown.faults self.new.countdown.faults result }

        ensures counts { DidCount self.old.countdown self.new.countdown result }

        // The call that it stops inside is pending too.
        ensures did { DidDevice (DidCall (CutTo len)) (DidCall (CutTo len)) self.old self.new result }
    {
        if self.countdown.stopped {
            self.countdown.fail();
            return Err(DiskFault::Failed);
        }
        if self.inner.cut(len).is_err() {
            return Err(DiskFault::Memory);
        }
        self.countdown.count()?;
        Ok(())
    }

    fn sync(&mut self) -> Result<(), DiskFault>
        ensures durable { OnOk result (Only self.old.inner.held.bytes (MayLeave self.new.inner.held)) }
        ensures size { length self.new.inner.held.bytes ≡ length self.old.inner.held.bytes }
        ensures seen { self.new.inner.held.bytes ≡ self.old.inner.held.bytes }
        ensures crash { NoMore (MayLeave self.old.inner.held) (MayLeave self.new.inner.held) }
        ensures time { DiskGoesOn self.old.inner.past.moments self.old.inner.held self.new.inner.past.moments self.new.inner.held }
        ensures cause { HasDiskCause self.old.countdown.faults self.new.countdown.faults result }

        ensures counts { DidCount self.old.countdown self.new.countdown result }

        // A sync that it stops inside leaves all pending.
        ensures did { DidDevice WasSynced Unchanged self.old self.new result }
    {
        if self.countdown.stopped {
            self.countdown.fail();
            return Err(DiskFault::Failed);
        }
        self.countdown.count()?;
        self.inner.settle();
        Ok(())
    }
}
