// The entry of a step is written to the node's journal.
ghost use Rattle.std.specs.Prelude.{◌≡◌, ◌++◌, ◌∷◌, [], ◌⊎◌, IsTrue, IsNone, IsSome, IfSome, OnOk, is_some};
ghost use Rattle.std.specs.Option.{option_to_list};
ghost use Rattle.node_cell.specs.Faults.{HasWriteCause};
ghost use Rattle.node_cell.specs.Written.{entries_on, tells_on, faults_on, IsDurable};

use crate::fault::CellFault;
use mur_base::Bytes;
use mur_disk::Disk;
use mur_journal::{AppendFault, Journal};
use std::alloc::Global;

/// The most bytes of an entry.
pub(crate) const LONGEST: usize = 1_073_741_824;

/// Writes the entry of a step, if it has one, and syncs. An entry of more than 2^30 bytes is refused as if memory were wanting.
pub(crate) fn write<D: Disk>(
    alloc: Global,
    journal: &mut Option<Journal<D>>,
    entry: &Option<Bytes>,
) -> Result<(), CellFault>
    requires { IsSome journal.old ⊎ IsNone entry.now }
    ensures added { IsTrue (tells_on journal.old) → OnOk result (entries_on journal.new ≡ entries_on journal.old ++ option_to_list entry.now) }
    ensures durable { IsTrue (tells_on journal.old) → OnOk result (IfSome entry.now (λ bytes. IsDurable journal.new (entries_on journal.old ++ bytes ∷ []))) }
    ensures same { is_some journal.new ≡ is_some journal.old }
    ensures told { tells_on journal.new ≡ tells_on journal.old }
    ensures cause { HasWriteCause (faults_on journal.old) (faults_on journal.new) result }
{
    let Some(entry) = entry else {
        return Ok(());
    };
    if entry.len() > LONGEST {
        return Err(CellFault::Memory);
    }
    match journal {
        Some(journal) => match journal.append(alloc, entry.as_slice()) {
            Ok(()) => Ok(()),
            Err(AppendFault::Disk) => Err(CellFault::Down),
            // A journal that was spent at the start wants memory, too.
            Err(AppendFault::Spent | AppendFault::Memory) => Err(CellFault::Memory),
        },
        None => Ok(()),
    }
}
