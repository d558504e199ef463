// A block is written after the closed gate, and then the gate is opened: two writes, each followed by a sync.
ghost use Rattle.std.specs.Prelude.{◌≡◌, ◌+◌, ◌<◌, ◌++◌, List, ℕ, length, IsTrue, OnOk};
ghost use Rattle.mur_disk.specs.Counts.{HasDiskCause};
ghost use Rattle.mur_disk.specs.Moments.{LeavesOnly};
ghost use Rattle.mur_journal.specs.Image.{entries_of, IsBlock};
ghost use Rattle.mur_journal.specs.Settled.{IsSettled, HasBeforeOrAfter};

use mur_disk::{Disk, DiskFault, write_synced};

// Writes a block of entries after the closed gate and opens the gate, in four device calls.
pub(crate) fn commit<D: Disk>(disk: &mut D, gate: u64, block: &[u8]) -> Result<(), DiskFault>
    requires within { gate < D.size disk.old }
    requires settled { IsTrue (D.tells disk.old) → IsSettled D.seen D.may_leave disk.old gate }
    ensures settled { (more : List (List ℕ)) → IsBlock more block.now → IsTrue (D.tells disk.old)
        → OnOk result (IsSettled D.seen D.may_leave disk.new (gate + length block.now)) }
    ensures entries { (more : List (List ℕ)) → IsBlock more block.now → IsTrue (D.tells disk.old)
        → OnOk result (entries_of (D.seen disk.new) ≡ entries_of (D.seen disk.old) ++ more) }
    ensures within { OnOk result (gate + length block.now < D.size disk.new) }
    ensures any_moment { (more : List (List ℕ)) → IsBlock more block.now → IsTrue (D.tells disk.old)
        → LeavesOnly D.moment D.left_since disk.old disk.new (HasBeforeOrAfter (entries_of (D.seen disk.old)) more) }
    ensures told { D.tells disk.new ≡ D.tells disk.old }
    ensures cause { HasDiskCause (D.faults disk.old) (D.faults disk.new) result }
{
    write_synced(disk, gate + 1, block)?;
    write_synced(disk, gate, &[1])
}
