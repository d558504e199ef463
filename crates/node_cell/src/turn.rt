// A cell takes an input.
ghost use Rattle.std.specs.Prelude.{◌≡◌, ◌≢◌, ◌++◌, ◌∷◌, [], Some, None, IsTrue, IfSome, IfOk, OnOk, OnErr, IfErr, IfNone, IsErrOf};
ghost use Rattle.std.specs.Option.{option_to_list};
ghost use Rattle.node_step.specs.NodeStep.{takes};
ghost use Rattle.node_step.specs.Room.{HasRoomToTake};
ghost use Rattle.node_cell.specs.Faults.{HasCellCause};
ghost use Rattle.node_cell.specs.Full.{IsFull, IsNext};
ghost use Rattle.node_cell.specs.Parts.{name_of, begun_of, node_of, journal_of, stamp_of, log_of, fault_of};
ghost use Rattle.node_cell.specs.Stamps.{next_stamp, logged_behind};
ghost use Rattle.node_cell.specs.Written.{entries_on, tells_on, faults_on, IsDurable};
ghost use Rattle.node_cell.specs.declared.fault.CellFault.{CellFault};
ghost use Rattle.node_cell.specs.declared.fault.CellFault.TheVariants.{LogFull};

use crate::act::act;
use crate::cell::Cell;
use crate::fault::CellFault;
use crate::measure::room_behind;
use crate::taken::Taken;
use link_msg::Outs;
use mur_base::Items;
use mur_disk::Disk;
use node_step::NodeInput;
use record_merge::Logged;
use std::alloc::Global;

/// What a turn gives.
#[derive(Drop)]
pub struct Turn {
    /// What the step lets out, in order.
    pub outs: Outs,
    /// The stamp of the step, which its messages carry.
    pub stamp: u64,
}

/// What several turns give, in order.
pub type Turns = Items<Turn>;

impl<D: Disk> Cell<D> {
    /// The node takes an input, whose stamp is that of the step that sent it, or 0 for a client's input and for a message that was on its
    /// link at the start. The entry of the step is written to the journal before the outputs come, and the log gets the input with the
    /// new stamp.
    ///
    /// `LogFull` comes exactly where the log has no room for the step, and the cell is as it was. `Down` comes where the disk of the
    /// journal fails, and `Memory` also for an entry of more than 2^30 bytes; after either the cell takes no input any more.
    pub fn turn(&mut self, alloc: Global, input: NodeInput, stamp: u64) -> Result<Turn, CellFault>
        requires room { HasRoomToTake (node_of self.old) input }
        ensures node { OnOk result (node_of self.new ≡ (takes (node_of self.old) input).state) }
        ensures outs { IfOk result (λ turn. turn.outs ≡ (takes (node_of self.old) input).outs) }
        ensures stamp { IfOk result (λ turn. turn.stamp ≡ next_stamp (stamp_of self.old) stamp) }
        ensures same_stamp { IfOk result (λ turn. stamp_of self.new ≡ turn.stamp) }
        ensures log { OnOk result (log_of self.new ≡ log_of self.old ++ logged_behind (stamp_of self.old) stamp input ∷ []) }
        ensures ready { OnOk result ((fault_of self.old ≡ None) × (fault_of self.new ≡ None)) }

        // The entry is on the disk, and each image that a crash may leave has it.
        ensures added { IsTrue (tells_on (journal_of self.old)) → OnOk result (entries_on (journal_of self.new)
            ≡ entries_on (journal_of self.old) ++ option_to_list (takes (node_of self.old) input).entry) }
        ensures durable { IsTrue (tells_on (journal_of self.old)) → OnOk result (IfSome (takes (node_of self.old) input).entry
            (λ entry. IsDurable (journal_of self.new) (entries_on (journal_of self.old) ++ entry ∷ []))) }

        ensures full { IsErrOf result LogFull → (fault_of self.old ≡ None) × IsFull (name_of self.old) (log_of self.old) (stamp_of self.old) stamp input }
        ensures not_full { fault_of self.old ≡ None → IsFull (name_of self.old) (log_of self.old) (stamp_of self.old) stamp input → IsErrOf result LogFull }
        ensures unchanged { IsErrOf result LogFull → self.new ≡ self.old }
        ensures stays { (fault : CellFault) → fault_of self.old ≡ Some fault → (IsErrOf result fault) × (self.new ≡ self.old) }
        ensures stopped { IfErr result (λ fault. fault ≢ LogFull → fault_of self.new ≡ Some fault) }
        ensures err { OnErr result ((log_of self.new ≡ log_of self.old) × (stamp_of self.new ≡ stamp_of self.old)) }
        ensures name { name_of self.new ≡ name_of self.old }
        ensures begun { begun_of self.new ≡ begun_of self.old }
        ensures told { tells_on (journal_of self.new) ≡ tells_on (journal_of self.old) }
        ensures cause { HasCellCause (fault_of self.old) (faults_on (journal_of self.old)) (faults_on (journal_of self.new)) result }
    {
        if let Some(fault) = self.fault {
            return Err(fault);
        }
        let Some((next, room)) = self.behind(&input, stamp) else {
            return Err(CellFault::LogFull);
        };
        let Ok(taken) = Taken::of(alloc, &input) else {
            self.fault = Some(CellFault::Memory);
            return Err(CellFault::Memory);
        };
        match act(alloc, &mut self.node, &mut self.journal, input) {
            Ok(outs) => {
                let entry = Logged {
                    stamp: next,
                    heard: stamp,
                    input: taken,
                };
                match self.log.push(entry) {
                    Ok(()) => {
                        self.stamp = next;
                        self.room = room;
                        Ok(Turn { outs, stamp: next })
                    }
                    Err(_) => {
                        self.fault = Some(CellFault::Memory);
                        Err(CellFault::Memory)
                    }
                }
            }
            Err(fault) => {
                self.fault = Some(fault);
                Err(fault)
            }
        }
    }

    /// The stamp of the next step and the room behind it, unless the log is full.
    fn behind(&self, input: &NodeInput, heard: u64) -> Option<(u64, u64)>
        ensures full { IfNone result (IsFull (name_of self.now) (log_of self.now) (stamp_of self.now) heard input.now) }
        ensures room { IfSome result (λ next. IsNext (name_of self.now) (log_of self.now) (stamp_of self.now) heard input.now next.0 next.1) }
    {
        let Some(stamp) = self.stamp.max(heard).checked_add(1) else {
            return None;
        };
        let Some(room) = room_behind(self.room, &self.name, input) else {
            return None;
        };
        Some((stamp, room))
    }
}
