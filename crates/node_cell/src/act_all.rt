// A node takes several inputs, and writes the entries of their steps.
ghost use Rattle.std.specs.Prelude.{◌≡◌, ◌<◌, ◌^◌, ◌++◌, IsTrue, IfOk, OnOk, length};
ghost use Rattle.node_cell.specs.Batch.{HasRoomToTakeAll, last_stamp, steps_behind, turns_of};
ghost use Rattle.node_cell.specs.Faults.{HasWriteCause};
ghost use Rattle.node_cell.specs.Replayed.{entries_after, state_after};
ghost use Rattle.node_cell.specs.Written.{entries_on, tells_on, faults_on, may_write, IsDurable};

use crate::batch::{Batch, take_all};
use crate::fault::CellFault;
use crate::write_all::write_all;
use mur_disk::Disk;
use mur_journal::Journal;
use node_step::{NodeInput, NodeState};
use std::alloc::Global;

/// Takes inputs; what the steps give comes once all their entries are written.
pub(crate) fn act_all<D: Disk>(
    alloc: Global,
    node: &mut NodeState,
    journal: &mut Option<Journal<D>>,
    stamp: u64,
    inputs: Vec<(u64, NodeInput)>,
) -> Result<Batch, CellFault>
    requires room { HasRoomToTakeAll node.old inputs.items }
    requires fits { last_stamp stamp inputs.items < 2 ^ 64 }
    requires writes { IsTrue (may_write journal.old node.old) }
    ensures node { OnOk result (node.new ≡ state_after node.old (steps_behind stamp inputs.items)) }
    ensures steps { IfOk result (λ batch. batch.steps ≡ steps_behind stamp inputs.items) }
    ensures turns { IfOk result (λ batch. batch.turns ≡ turns_of node.old (steps_behind stamp inputs.items)) }
    ensures added { IsTrue (tells_on journal.old)
        → OnOk result (entries_on journal.new ≡ entries_on journal.old ++ entries_after node.old (steps_behind stamp inputs.items)) }
    ensures durable { IsTrue (tells_on journal.old) → OnOk result (0 < length (entries_after node.old (steps_behind stamp inputs.items))
        → IsDurable journal.new (entries_on journal.old ++ entries_after node.old (steps_behind stamp inputs.items))) }
    ensures writes { OnOk result (IsTrue (may_write journal.new node.new)) }
    ensures told { tells_on journal.new ≡ tells_on journal.old }
    ensures cause { HasWriteCause (faults_on journal.old) (faults_on journal.new) result }
{
    match take_all(alloc, node, stamp, inputs) {
        Ok(batch) => match write_all(alloc, journal, &batch.entries) {
            Ok(()) => Ok(batch),
            Err(fault) => Err(fault),
        },
        Err(_) => Err(CellFault::Memory),
    }
}
