// A journal: its disk, the place of its closed gate, and whether it is spent.
ghost use Rattle.std.specs.Prelude.{◌<◌, IsTrue, IsFalse};
ghost use Rattle.mur_journal.specs.Settled.{IsSettled};

use mur_disk::Disk;

/// The journal on a disk. After an append that was refused for its disk or for memory it is spent: what the disk then holds is
/// found by opening it again.
#[derive(Drop)]
pub struct Journal<D: Disk> {
    pub(crate) disk: D,
    pub(crate) gate: u64,
    pub(crate) spent: bool,
    ghost within: { IsFalse spent → gate < D.size disk },
    ghost settled: { IsFalse spent → IsTrue (D.tells disk) → IsSettled D.seen D.may_leave disk gate },
}
