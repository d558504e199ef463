// Opening a journal: the disk is read once.
ghost use Rattle.std.specs.Prelude.{◌≡◌, ◌<◌, ℕ, IsTrue, IsFalse, IfOk, IfErr, IsErrOf};
ghost use Rattle.mur_disk.specs.Crash.{Only, NoMore};
ghost use Rattle.mur_disk.specs.Moments.{LeavesOnly};
ghost use Rattle.mur_journal.specs.Faults.{HasOpenCause, HasOpenFault};
ghost use Rattle.mur_journal.specs.Image.{Good, Bad, parsed, HasEntries};
ghost use Rattle.mur_journal.specs.Parts.{disk_of, journal_is_spent};
ghost use Rattle.mur_journal.specs.declared.fault.OpenFault.TheVariants.{NotAJournal};

use crate::fault::OpenFault;
use crate::journal::Journal;
use crate::parse::{Entries, read_image};
use mur_disk::Disk;
use std::alloc::Global;

fn read_all<D: Disk>(alloc: Global, disk: &mut D) -> Result<(Entries, u64), OpenFault>
    ensures good { IsTrue (D.tells disk.old) → IfOk result (λ read. parsed (D.seen disk.old) ≡ Good read.0 read.1) }
    ensures within { IfOk result (λ read. read.1 < D.size disk.old) }
    ensures bad { IsTrue (D.tells disk.old) → (offset : ℕ) → IsErrOf result (NotAJournal offset) → parsed (D.seen disk.old) ≡ Bad offset }
    ensures size { D.size disk.new ≡ D.size disk.old }
    ensures told { D.tells disk.new ≡ D.tells disk.old }
    ensures seen { IsTrue (D.tells disk.old) → D.seen disk.new ≡ D.seen disk.old }
    ensures crash { IsTrue (D.tells disk.old) → NoMore (D.may_leave disk.old) (D.may_leave disk.new) }
    ensures any_moment { IsTrue (D.tells disk.old) → Only (D.seen disk.old) (D.may_leave disk.old)
        → LeavesOnly D.moment D.left_since disk.old disk.new (λ image. image ≡ D.seen disk.old) }
    ensures cause { HasOpenCause (D.faults disk.old) (D.faults disk.new) result }
{
    let len = disk.len()?;
    let mut image = vec![in alloc; 0u8; len as usize]?;
    disk.read_at(0, &mut image)?;
    read_image(alloc, &image)
}

impl<D: Disk> Journal<D> {
    /// Opens the journal on a disk on which nothing is pending, and reads its entries, in time linear in its bytes. It writes
    /// nothing. A refusal hands the disk back, with nothing pending.
    ///
    /// `NotAJournal` comes where the image isn't in the form of a journal, with the first byte that differs from the magic, or
    /// the length of an image that ends before its first gate, or the place of an open gate that isn't followed by a length, as
    /// many bytes and a gate. `Disk` comes only where the disk's count of faults rose.
    pub fn open_on(alloc: Global, disk: D) -> Result<(Journal<D>, Entries), (D, OpenFault)>
        requires still { IsTrue (D.tells disk) → Only (D.seen disk) (D.may_leave disk) }
        ensures entries { IsTrue (D.tells disk) → IfOk result (λ opened. HasEntries (D.seen disk) opened.1) }
        ensures seen { IsTrue (D.tells disk) → IfOk result (λ opened. D.seen (disk_of opened.0) ≡ D.seen disk) }
        ensures whole { IfOk result (λ opened. IsFalse (journal_is_spent opened.0)) }
        ensures told { IfOk result (λ opened. D.tells (disk_of opened.0) ≡ D.tells disk) }
        ensures counted { IfOk result (λ opened. D.faults (disk_of opened.0) ≡ D.faults disk) }

        // `NotAJournal` comes for no image that is one, and tells the place at which it shows.
        ensures bad { IsTrue (D.tells disk) → IfErr result (λ refused. (offset : ℕ) → refused.1 ≡ NotAJournal offset → parsed (D.seen disk) ≡ Bad offset) }
        ensures kept { IsTrue (D.tells disk) → IfErr result (λ refused. D.seen refused.0 ≡ D.seen disk) }
        ensures still_back { IsTrue (D.tells disk) → IfErr result (λ refused. Only (D.seen refused.0) (D.may_leave refused.0)) }
        ensures told_back { IfErr result (λ refused. D.tells refused.0 ≡ D.tells disk) }

        // A crash at any moment of the call leaves what was there.
        ensures any_moment { IsTrue (D.tells disk)
            → IfOk result (λ opened. LeavesOnly D.moment D.left_since disk (disk_of opened.0) (λ image. image ≡ D.seen disk)) }
        ensures as_it_was { IsTrue (D.tells disk)
            → IfErr result (λ refused. LeavesOnly D.moment D.left_since disk refused.0 (λ image. image ≡ D.seen disk)) }
        ensures cause { IfErr result (λ refused. HasOpenFault (D.faults disk) (D.faults refused.0) refused.1) }
    {
        let mut disk = disk;
        match read_all(alloc, &mut disk) {
            Ok((entries, gate)) => Ok((
                Journal {
                    disk,
                    gate,
                    spent: false,
                },
                entries,
            )),
            Err(fault) => Err((disk, fault)),
        }
    }
}
