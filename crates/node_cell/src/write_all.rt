// The entries of several steps are written to the node's journal at once.
ghost use Rattle.std.specs.Prelude.{◌≡◌, ◌≤◌, ◌<◌, ◌^◌, ◌++◌, ◌⊎◌, [], All, IsTrue, IsSome, OnOk, is_some, length};
ghost use Rattle.node_cell.specs.Faults.{HasWriteCause};
ghost use Rattle.node_cell.specs.Written.{entries_on, tells_on, faults_on, IsDurable};

use crate::fault::CellFault;
use mur_base::{Bytes, Items};
use mur_disk::Disk;
use mur_journal::{AppendFault, Journal};
use std::alloc::Global;

/// Writes the entries of several steps behind one gate, if there are any, and syncs: a crash leaves all of them or none.
pub(crate) fn write_all<D: Disk>(
    alloc: Global,
    journal: &mut Option<Journal<D>>,
    entries: &Items<Bytes>,
) -> Result<(), CellFault>
    requires writes { IsSome journal.old ⊎ (entries.now ≡ []) }
    requires short { All (λ entry. length entry ≤ 2 ^ 30) entries.now }
    ensures added { IsTrue (tells_on journal.old) → OnOk result (entries_on journal.new ≡ entries_on journal.old ++ entries.now) }
    ensures durable { IsTrue (tells_on journal.old) → OnOk result (0 < length entries.now → IsDurable journal.new (entries_on journal.old ++ entries.now)) }
    ensures same { is_some journal.new ≡ is_some journal.old }
    ensures told { tells_on journal.new ≡ tells_on journal.old }
    ensures cause { HasWriteCause (faults_on journal.old) (faults_on journal.new) result }
{
    if entries.is_empty() {
        return Ok(());
    }
    match journal {
        Some(journal) => match journal.append_all(alloc, entries.as_slice()) {
            Ok(()) => Ok(()),
            Err(AppendFault::Disk) => Err(CellFault::Down),
            // A journal that was spent at the start wants memory, too.
            Err(AppendFault::Spent | AppendFault::Memory) => Err(CellFault::Memory),
        },
        None => Ok(()),
    }
}
