// Appends: the blocks of the entries are built, and then committed after the closed gate.
ghost use Rattle.std.specs.Prelude.{◌≡◌, ◌<◌, ◌≤◌, ◌+◌, ◌^◌, ◌++◌, ◌∷◌, ◌↔◌, [], List, ℕ, All, length, IsTrue, IsFalse, OnOk, OnErr, IsErrOf, IfOk};
ghost use Rattle.mur_disk.specs.Crash.{Only};
ghost use Rattle.mur_disk.specs.Moments.{LeavesOnly};
ghost use Rattle.mur_journal.specs.Faults.{HasAppendCause};
ghost use Rattle.mur_journal.specs.Image.{entries_of, HasEntries};
ghost use Rattle.mur_journal.specs.Parts.{disk_of, journal_is_spent};
ghost use Rattle.mur_journal.specs.Settled.{HasBeforeOrAfter};
ghost use Rattle.mur_journal.specs.declared.fault.AppendFault.TheVariants.{Spent};

use crate::block::{block_of, block_of_all, without_gate};
use crate::commit::commit;
use crate::fault::AppendFault;
use crate::journal::Journal;
use mur_base::Bytes;
use mur_disk::Disk;
use std::alloc::Global;

impl<D: Disk> Journal<D> {
    /// Adds an entry of at most 2^30 bytes, in four device calls. At `Ok` each image that a crash may leave has it.
    ///
    /// `Disk` comes only where the disk's count of faults rose. `Spent` comes exactly after an append that was refused for its
    /// disk or for memory; the disk isn't touched, and no memory is taken.
    pub fn append(&mut self, alloc: Global, entry: &[u8]) -> Result<(), AppendFault>
        requires { length entry.now ≤ 2 ^ 30 }
        ensures added { IsTrue (D.tells (disk_of self.old))
            → OnOk result (entries_of (D.seen (disk_of self.new)) ≡ entries_of (D.seen (disk_of self.old)) ++ entry.now ∷ []) }
        ensures acknowledged { IsTrue (D.tells (disk_of self.old))
            → OnOk result ((image : List ℕ) → D.may_leave (disk_of self.new) image
            → HasEntries image (entries_of (D.seen (disk_of self.old)) ++ entry.now ∷ [])) }

        // A crash at any moment of the call, and after any answer, leaves the entries from before it, with this one or without.
        ensures any_moment { IsFalse (journal_is_spent self.old) → IsTrue (D.tells (disk_of self.old))
            → LeavesOnly D.moment D.left_since (disk_of self.old) (disk_of self.new)
            (HasBeforeOrAfter (entries_of (D.seen (disk_of self.old))) (entry.now ∷ [])) }

        ensures spent { IsErrOf result Spent ↔ IsTrue (journal_is_spent self.old) }
        ensures untouched { IsErrOf result Spent → disk_of self.new ≡ disk_of self.old }
        ensures ok { OnOk result (IsFalse (journal_is_spent self.new)) }
        ensures err { OnErr result (IsTrue (journal_is_spent self.new)) }
        ensures told { D.tells (disk_of self.new) ≡ D.tells (disk_of self.old) }
        ensures cause { HasAppendCause (D.faults (disk_of self.old)) (D.faults (disk_of self.new)) result }
    {
        if self.spent {
            return Err(AppendFault::Spent);
        }
        self.spent = true;
        let blocks = block_of(alloc, entry)?;
        let block = without_gate(blocks.as_slice());
        commit(&mut self.disk, self.gate, block)?;
        self.gate += block.len() as u64;
        self.spent = false;
        Ok(())
    }

    /// Adds entries of at most 2^30 bytes each after one gate, in four device calls: a crash leaves all of them or none.
    /// Refusals are those of [`append`](Journal::append).
    pub fn append_all(&mut self, alloc: Global, entries: &[Bytes]) -> Result<(), AppendFault>
        requires short { All (λ entry. length entry ≤ 2 ^ 30) entries.now }
        requires some { 0 < length entries.now }
        ensures added { IsTrue (D.tells (disk_of self.old))
            → OnOk result (entries_of (D.seen (disk_of self.new)) ≡ entries_of (D.seen (disk_of self.old)) ++ entries.now) }
        ensures acknowledged { IsTrue (D.tells (disk_of self.old))
            → OnOk result ((image : List ℕ) → D.may_leave (disk_of self.new) image
            → HasEntries image (entries_of (D.seen (disk_of self.old)) ++ entries.now)) }

        // A crash at any moment of the call, and after any answer, leaves the entries from before it, with all of these or with none.
        ensures any_moment { IsFalse (journal_is_spent self.old) → IsTrue (D.tells (disk_of self.old))
            → LeavesOnly D.moment D.left_since (disk_of self.old) (disk_of self.new)
            (HasBeforeOrAfter (entries_of (D.seen (disk_of self.old))) entries.now) }

        ensures spent { IsErrOf result Spent ↔ IsTrue (journal_is_spent self.old) }
        ensures untouched { IsErrOf result Spent → disk_of self.new ≡ disk_of self.old }
        ensures ok { OnOk result (IsFalse (journal_is_spent self.new)) }
        ensures err { OnErr result (IsTrue (journal_is_spent self.new)) }
        ensures told { D.tells (disk_of self.new) ≡ D.tells (disk_of self.old) }
        ensures cause { HasAppendCause (D.faults (disk_of self.old)) (D.faults (disk_of self.new)) result }
    {
        if self.spent {
            return Err(AppendFault::Spent);
        }
        self.spent = true;
        let blocks = block_of_all(alloc, entries)?;
        let block = without_gate(blocks.as_slice());
        commit(&mut self.disk, self.gate, block)?;
        self.gate += block.len() as u64;
        self.spent = false;
        Ok(())
    }

    /// The disk, on which nothing is pending unless the journal is spent. It takes no memory.
    pub fn into_disk(self) -> D
        ensures disk { result ≡ disk_of self }
        ensures still { IsFalse (journal_is_spent self) → IsTrue (D.tells (disk_of self)) → Only (D.seen (disk_of self)) (D.may_leave (disk_of self)) }
    {
        let Journal { disk, .. } = self;
        disk
    }
}
