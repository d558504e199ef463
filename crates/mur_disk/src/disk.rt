// A disk: what a read gives, what a crash may leave, and what a sync makes durable.
ghost use Rattle.std.specs.Prelude.{◌≡◌, ◌≤◌, ◌<◌, ◌+◌, ◌^◌, List, ℕ, Bool, IsTrue, length, take, drop, max, IfOk, OnOk};
ghost use Rattle.mur_disk.specs.Calls.{Call, Wrote, CutTo, Holds};
ghost use Rattle.mur_disk.specs.Counts.{HasDiskCause};
ghost use Rattle.mur_disk.specs.Crash.{IsTornBy, CrashesFollow, NoMore, Only};
ghost use Rattle.mur_disk.specs.Moments.{Elapses, LeavesOnly};

use crate::fault::DiskFault;

/// A disk of bytes whose writes may be torn.
///
/// Until a sync, a crash may leave any bytes in the range of each write, and past the old end; bytes outside stay. After a sync
/// that succeeded, a crash leaves what a read gives.
///
/// Whether a disk tells its content never changes, and the clauses on content hold for a disk that tells it. Each disk tells
/// its length and its count of faults. `Failed` comes only from a call in which the count rose.
pub trait Disk {
    /// Whether it tells its content.
    ghost tells: { Self → Bool };

    /// What a read gives.
    ghost seen: { Self → List ℕ };

    /// What a crash at this moment may leave.
    ghost may_leave: { Self → List ℕ → Type 0 };

    /// The moment, a number that doesn't fall.
    ghost moment: { Self → ℕ };

    /// What a crash since that moment might have left, during a call or between two.
    ghost left_since: { Self → ℕ → List ℕ → Type 0 };

    /// Its length in bytes.
    ghost size: { Self → ℕ };

    /// How often it has failed. The count never falls, and stands still at the end of its type.
    ghost faults: { Self → ℕ };

    /// Its length in bytes.
    fn len(&mut self) -> Result<u64, DiskFault>
        ensures length { IfOk result (λ n. n ≡ size self.old) }
        ensures size { size self.new ≡ size self.old }
        ensures told { tells self.new ≡ tells self.old }
        ensures seen { IsTrue (tells self.old) → seen self.new ≡ seen self.old }
        ensures crash { IsTrue (tells self.old) → NoMore (may_leave self.old) (may_leave self.new) }
        ensures time { IsTrue (tells self.old) → Elapses (moment self.old) (moment self.new) (left_since self.old) (left_since self.new) (may_leave self.new) }
        ensures cause { HasDiskCause (faults self.old) (faults self.new) result };

    /// Fills the buffer with the bytes from `at` on.
    fn read_at(&mut self, at: u64, buf: &mut [u8]) -> Result<(), DiskFault>
        requires { at + length buf.old ≤ size self.old }
        ensures bytes { IsTrue (tells self.old) → OnOk result (buf.new ≡ take (length buf.old) (drop at (seen self.old))) }
        ensures size { size self.new ≡ size self.old }
        ensures told { tells self.new ≡ tells self.old }
        ensures seen { IsTrue (tells self.old) → seen self.new ≡ seen self.old }
        ensures crash { IsTrue (tells self.old) → NoMore (may_leave self.old) (may_leave self.new) }
        ensures time { IsTrue (tells self.old) → Elapses (moment self.old) (moment self.new) (left_since self.old) (left_since self.new) (may_leave self.new) }
        ensures cause { HasDiskCause (faults self.old) (faults self.new) result };

    /// Writes the piece over what is there and past the end. A disk never grows to 2^64 bytes: a write that would is refused.
    fn write_at(&mut self, at: u64, piece: &[u8]) -> Result<(), DiskFault>
        requires { at ≤ size self.old }
        ensures written { IsTrue (tells self.old) → OnOk result (Holds (seen self.old) at piece.now (seen self.new)) }
        ensures size { OnOk result (size self.new ≡ max (size self.old) (at + length piece.now)) }
        ensures told { tells self.new ≡ tells self.old }
        ensures crash { IsTrue (tells self.old) → CrashesFollow (IsTornBy (Wrote at piece.now)) (may_leave self.old) (may_leave self.new) }
        ensures time { IsTrue (tells self.old) → Elapses (moment self.old) (moment self.new) (left_since self.old) (left_since self.new) (may_leave self.new) }
        ensures cause { HasDiskCause (faults self.old) (faults self.new) result };

    /// Cuts the disk to a length in bytes.
    fn cut(&mut self, len: u64) -> Result<(), DiskFault>
        requires { len ≤ size self.old }
        ensures cut { IsTrue (tells self.old) → OnOk result (seen self.new ≡ take len (seen self.old)) }
        ensures size { OnOk result (size self.new ≡ len) }
        ensures told { tells self.new ≡ tells self.old }
        ensures crash { IsTrue (tells self.old) → CrashesFollow (IsTornBy (CutTo len)) (may_leave self.old) (may_leave self.new) }
        ensures time { IsTrue (tells self.old) → Elapses (moment self.old) (moment self.new) (left_since self.old) (left_since self.new) (may_leave self.new) }
        ensures cause { HasDiskCause (faults self.old) (faults self.new) result };

    /// Makes durable what was written and cut: after it a crash leaves what a read gives.
    fn sync(&mut self) -> Result<(), DiskFault>
        ensures durable { IsTrue (tells self.old) → OnOk result (Only (seen self.old) (may_leave self.new)) }
        ensures size { size self.new ≡ size self.old }
        ensures told { tells self.new ≡ tells self.old }
        ensures seen { IsTrue (tells self.old) → seen self.new ≡ seen self.old }
        ensures crash { IsTrue (tells self.old) → NoMore (may_leave self.old) (may_leave self.new) }
        ensures time { IsTrue (tells self.old) → Elapses (moment self.old) (moment self.new) (left_since self.old) (left_since self.new) (may_leave self.new) }
        ensures cause { HasDiskCause (faults self.old) (faults self.new) result };

    ghost is_size: { (disk : Self) → IsTrue (tells disk) → size disk ≡ length (seen disk) };

    ghost bounded: { (disk : Self) → size disk < 2 ^ 64 };

    /// The disk as it reads is one of its images.
    ghost reads_one: { (disk : Self) → IsTrue (tells disk) → ∥ may_leave disk (seen disk) ∥₁ };

    /// This moment is one of those since an earlier one.
    ghost counts_now: { (disk : Self) (t : ℕ) (image : List ℕ) → IsTrue (tells disk) → t ≤ moment disk → may_leave disk image → left_since disk t image };

    /// Since this moment there is no other.
    ghost only_now: { (disk : Self) (image : List ℕ) → IsTrue (tells disk) → left_since disk (moment disk) image → may_leave disk image };
}

/// Writes a piece and syncs: two device calls. At `Ok` the piece is on the disk. A crash at any moment of the call, and after any
/// answer, leaves the bytes from before with that range torn.
pub fn write_synced<D: Disk>(disk: &mut D, at: u64, piece: &[u8]) -> Result<(), DiskFault>
    requires { at ≤ D.size disk.old }
    ensures written { IsTrue (D.tells disk.old) → OnOk result (Holds (D.seen disk.old) at piece.now (D.seen disk.new)) }
    ensures durable { IsTrue (D.tells disk.old) → OnOk result (Only (D.seen disk.new) (D.may_leave disk.new)) }
    ensures size { OnOk result (D.size disk.new ≡ max (D.size disk.old) (at + length piece.now)) }
    ensures told { D.tells disk.new ≡ D.tells disk.old }
    ensures any_moment { IsTrue (D.tells disk.old) → Only (D.seen disk.old) (D.may_leave disk.old)
        → LeavesOnly D.moment D.left_since disk.old disk.new (IsTornBy (Wrote at piece.now) (D.seen disk.old)) }
    ensures cause { HasDiskCause (D.faults disk.old) (D.faults disk.new) result }
{
    disk.write_at(at, piece)?;
    disk.sync()
}
