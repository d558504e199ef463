// A cell takes several inputs, and the disk of its journal syncs for all of them at once.
ghost use Rattle.std.specs.Prelude.{◌≡◌, ◌≢◌, ◌<◌, ◌++◌, Some, None, IsTrue, IfOk, IfErr, IfSome, IfNone, OnOk, OnErr, IsErrOf, length};
ghost use Rattle.node_cell.specs.Batch.{HasRoomToTakeAll, last_stamp, steps_behind, turns_of, IsFullForAll, AreNext};
ghost use Rattle.node_cell.specs.Faults.{HasCellCause};
ghost use Rattle.node_cell.specs.Parts.{name_of, begun_of, node_of, journal_of, stamp_of, log_of, fault_of};
ghost use Rattle.node_cell.specs.Replayed.{entries_after, state_after};
ghost use Rattle.node_cell.specs.Written.{entries_on, tells_on, faults_on, IsDurable};
ghost use Rattle.node_cell.specs.declared.fault.CellFault.{CellFault};
ghost use Rattle.node_cell.specs.declared.fault.CellFault.TheVariants.{LogFull};

use crate::act_all::act_all;
use crate::cell::Cell;
use crate::fault::CellFault;
use crate::measure_all::behind_all;
use crate::taken::Taken;
use crate::turn::Turns;
use mur_base::Memory;
use mur_disk::Disk;
use node_step::NodeInput;
use record_merge::Log;
use std::alloc::Global;
use std::mem;

impl<D: Disk> Cell<D> {
    /// The node takes inputs in their order, each with the stamp that [`turn`](Cell::turn) would get with it. All their entries are
    /// written to the journal in one append, and only then their outputs come, in order. The log gets a step for each.
    ///
    /// Refusals are those of `turn`, and are of all the inputs: no step goes into the log. `LogFull` comes exactly where the log has no
    /// room for all the steps.
    pub fn turns(
        &mut self,
        alloc: Global,
        inputs: Vec<(u64, NodeInput)>,
    ) -> Result<Turns, CellFault>
        requires room { HasRoomToTakeAll (node_of self.old) inputs.items }
        ensures node { OnOk result (node_of self.new ≡ state_after (node_of self.old) (steps_behind (stamp_of self.old) inputs.items)) }
        ensures turns { IfOk result (λ turns. turns ≡ turns_of (node_of self.old) (steps_behind (stamp_of self.old) inputs.items)) }
        ensures stamp { OnOk result (stamp_of self.new ≡ last_stamp (stamp_of self.old) inputs.items) }
        ensures log { OnOk result (log_of self.new ≡ log_of self.old ++ steps_behind (stamp_of self.old) inputs.items) }
        ensures ready { OnOk result ((fault_of self.old ≡ None) × (fault_of self.new ≡ None)) }

        // The entries are on the disk, and each image that a crash may leave has them.
        ensures added { IsTrue (tells_on (journal_of self.old)) → OnOk result (entries_on (journal_of self.new)
            ≡ entries_on (journal_of self.old) ++ entries_after (node_of self.old) (steps_behind (stamp_of self.old) inputs.items)) }
        ensures durable { IsTrue (tells_on (journal_of self.old))
            → OnOk result (0 < length (entries_after (node_of self.old) (steps_behind (stamp_of self.old) inputs.items))
            → IsDurable (journal_of self.new)
            (entries_on (journal_of self.old) ++ entries_after (node_of self.old) (steps_behind (stamp_of self.old) inputs.items))) }

        ensures full { IsErrOf result LogFull → (fault_of self.old ≡ None)
            × IsFullForAll (name_of self.old) (log_of self.old) (stamp_of self.old) inputs.items }
        ensures not_full { fault_of self.old ≡ None → IsFullForAll (name_of self.old) (log_of self.old) (stamp_of self.old) inputs.items
            → IsErrOf result LogFull }
        ensures unchanged { IsErrOf result LogFull → self.new ≡ self.old }
        ensures stays { (fault : CellFault) → fault_of self.old ≡ Some fault → (IsErrOf result fault) × (self.new ≡ self.old) }
        ensures stopped { IfErr result (λ fault. fault ≢ LogFull → fault_of self.new ≡ Some fault) }
        ensures err { OnErr result ((log_of self.new ≡ log_of self.old) × (stamp_of self.new ≡ stamp_of self.old)) }
        ensures name { name_of self.new ≡ name_of self.old }
        ensures begun { begun_of self.new ≡ begun_of self.old }
        ensures told { tells_on (journal_of self.new) ≡ tells_on (journal_of self.old) }
        ensures cause { HasCellCause (fault_of self.old) (faults_on (journal_of self.old)) (faults_on (journal_of self.new)) result }
    {
        if let Some(fault) = self.fault {
            return Err(fault);
        }
        let Some((last, room)) = self.behind_these(inputs.as_slice()) else {
            return Err(CellFault::LogFull);
        };
        match act_all(alloc, &mut self.node, &mut self.journal, self.stamp, inputs) {
            Ok(batch) => match put_behind(alloc, &mut self.log, batch.steps) {
                Ok(()) => {
                    self.stamp = last;
                    self.room = room;
                    Ok(batch.turns)
                }
                Err(_) => {
                    self.fault = Some(CellFault::Memory);
                    Err(CellFault::Memory)
                }
            },
            Err(fault) => {
                self.fault = Some(fault);
                Err(fault)
            }
        }
    }

    /// The stamp of the last of the steps that take these inputs and the room behind them, unless the log is full.
    fn behind_these(&self, inputs: &[(u64, NodeInput)]) -> Option<(u64, u64)>
        ensures full { IfNone result (IsFullForAll (name_of self.now) (log_of self.now) (stamp_of self.now) inputs.now) }
        ensures room { IfSome result (λ next. AreNext (name_of self.now) (log_of self.now) (stamp_of self.now) inputs.now next.0 next.1) }
    {
        behind_all(&self.name, self.stamp, self.room, inputs)
    }
}

/// Puts steps behind those of a log; for want of memory the log stays as it was.
fn put_behind(alloc: Global, log: &mut Log<Taken>, steps: Log<Taken>) -> Result<(), Memory>
    ensures ok { OnOk result (log.new ≡ log.old ++ steps) }
    ensures err { OnErr result (log.new ≡ log.old) }
{
    let mut items = mem::replace(log, Log::new(alloc)).into_vec();
    let mut more = steps.into_vec();
    let done = items.append(&mut more);
    *log = Log::from_vec(items);
    match done {
        Ok(()) => Ok(()),
        Err(_) => Err(Memory),
    }
}
