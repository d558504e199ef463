// The journal of an empty disk.
ghost use Rattle.std.specs.Prelude.{◌≡◌, ◌≤◌, [], ◌∷◌, ◌++◌, length, IsTrue, IsFalse, IfOk, IfErr, OnOk};
ghost use Rattle.mur_disk.specs.Calls.{Holds};
ghost use Rattle.mur_disk.specs.Counts.{HasDiskCause};
ghost use Rattle.mur_disk.specs.Crash.{Only};
ghost use Rattle.mur_disk.specs.Moments.{LeavesOnly};
ghost use Rattle.mur_journal.specs.Faults.{HasFormatCause};
ghost use Rattle.mur_journal.specs.Image.{magic, entries_of};
ghost use Rattle.mur_journal.specs.Parts.{disk_of, journal_is_spent};

use crate::fault::AppendFault;
use crate::journal::Journal;
use mur_disk::{Disk, DiskFault, write_synced};

// The magic and a closed gate.
const HEADER: [u8; 9] = [77, 85, 82, 68, 69, 82, 74, 49, 0];

// Writes the header on an empty disk, in two device calls.
fn write_header<D: Disk>(disk: &mut D) -> Result<(), DiskFault>
    requires { D.size disk.old ≡ 0 }
    ensures written { IsTrue (D.tells disk.old) → OnOk result (Holds (D.seen disk.old) 0 (magic ++ 0 ∷ []) (D.seen disk.new)) }
    ensures synced { IsTrue (D.tells disk.old) → OnOk result (Only (D.seen disk.new) (D.may_leave disk.new)) }
    ensures header { IsTrue (D.tells disk.old) → OnOk result (D.seen disk.new ≡ magic ++ 0 ∷ []) }
    ensures durable { IsTrue (D.tells disk.old) → OnOk result (Only (magic ++ 0 ∷ []) (D.may_leave disk.new)) }
    ensures size { OnOk result (D.size disk.new ≡ 9) }
    ensures told { D.tells disk.new ≡ D.tells disk.old }
    ensures any_moment { IsTrue (D.tells disk.old) → Only (D.seen disk.old) (D.may_leave disk.old)
        → LeavesOnly D.moment D.left_since disk.old disk.new (λ image. length image ≤ 9) }
    ensures cause { HasDiskCause (D.faults disk.old) (D.faults disk.new) result }
{
    write_synced(disk, 0, &HEADER)
}

/// Makes a journal without entries on an empty disk, in two device calls. A refusal hands the disk back.
///
/// `Disk` comes only where the disk's count of faults rose, and `Spent` never.
pub fn format<D: Disk>(disk: D) -> Result<Journal<D>, (D, AppendFault)>
    requires { D.size disk ≡ 0 }
    ensures header { IsTrue (D.tells disk) → IfOk result (λ journal. D.seen (disk_of journal) ≡ magic ++ 0 ∷ []) }
    ensures none { IsTrue (D.tells disk) → IfOk result (λ journal. entries_of (D.seen (disk_of journal)) ≡ []) }
    ensures durable { IsTrue (D.tells disk) → IfOk result (λ journal. Only (magic ++ 0 ∷ []) (D.may_leave (disk_of journal))) }
    ensures whole { IfOk result (λ journal. IsFalse (journal_is_spent journal)) }
    ensures told { IfOk result (λ journal. D.tells (disk_of journal) ≡ D.tells disk) }
    ensures counted { IfOk result (λ journal. D.faults (disk_of journal) ≡ D.faults disk) }
    ensures told_back { IfErr result (λ refused. D.tells refused.0 ≡ D.tells disk) }

    // A crash at any moment of the call leaves at most nine bytes, on a disk on which nothing was pending.
    ensures any_moment { IsTrue (D.tells disk) → Only (D.seen disk) (D.may_leave disk)
        → IfOk result (λ journal. LeavesOnly D.moment D.left_since disk (disk_of journal) (λ image. length image ≤ 9)) }
    ensures no_more { IsTrue (D.tells disk) → Only (D.seen disk) (D.may_leave disk)
        → IfErr result (λ refused. LeavesOnly D.moment D.left_since disk refused.0 (λ image. length image ≤ 9)) }
    ensures cause { IfErr result (λ refused. HasFormatCause (D.faults disk) (D.faults refused.0) refused.1) }
{
    let mut disk = disk;
    match write_header(&mut disk) {
        Ok(()) => Ok(Journal {
            disk,
            gate: 8,
            spent: false,
        }),
        Err(fault) => Err((disk, fault.into())),
    }
}
