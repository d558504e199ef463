// A node with its journal, its stamp and its log.
ghost use Rattle.std.specs.Prelude.{◌≡◌, ◌≢◌, ◌+◌, Some, IsTrue, IsNone};
ghost use Rattle.std.specs.Coded.{Coded-set};
ghost use Rattle.mur_base.specs.declared.limits.TheConstants.{LOG_LIMIT};
ghost use Rattle.node_cell.specs.Lines.{log_length};
ghost use Rattle.node_cell.specs.Replayed.{state_after};
ghost use Rattle.node_cell.specs.Stamps.{StampsTo, StampsTo-prop};
ghost use Rattle.node_cell.specs.Written.{may_write};
ghost use Rattle.node_cell.specs.declared.fault.CellFault.TheVariants.{LogFull};

use crate::fault::CellFault;
use crate::taken::Taken;
use mur_base::NodeName;
use mur_base::limits::LOG_LIMIT;
use mur_disk::Disk;
use mur_journal::Journal;
use node_step::NodeState;
use record_merge::Log;
use std::snapshot::Snapshot;

/// A node with its journal, its Lamport stamp and the log of what it took. Unless a fault has stopped it, the node's state is the replay
/// of the log.
#[derive(Drop)]
pub struct Cell<D: Disk> {
    pub(crate) name: NodeName,
    pub(crate) begun: Snapshot<NodeState>,
    pub(crate) node: NodeState,
    /// None at a frontend.
    pub(crate) journal: Option<Journal<D>>,
    /// That of the last step; 0 before the first.
    pub(crate) stamp: u64,
    pub(crate) log: Log<Taken>,
    /// How many bytes the lines of further steps may have.
    pub(crate) room: u64,
    /// The fault that has stopped it.
    pub(crate) fault: Option<CellFault>,
    ghost replays: { IsNone fault → node ≡ state_after begun.value log } by { Prim.hlevel (Coded-set node-code) },
    ghost stamps: { StampsTo 0 log stamp } by { StampsTo-prop 0 log stamp },
    ghost limited: { log_length name log + room ≡ LOG_LIMIT },
    ghost stopped: { fault ≢ Some LogFull },
    ghost writes: { IsNone fault → IsTrue (may_write journal node) },
}
