// Where a cell begins, what it tells of itself, and what is left of it.
ghost use Rattle.std.specs.Prelude.{◌≡◌, [], None, IsTrue};
ghost use Rattle.std.specs.Option.{option_map};
ghost use Rattle.mur_journal.specs.Parts.{disk_of};
ghost use Rattle.record_merge.specs.Logs.{RisesFrom};
ghost use Rattle.node_cell.specs.Replays.{ReplaysAs};
ghost use Rattle.node_cell.specs.Parts.{name_of, begun_of, node_of, journal_of, stamp_of, log_of, fault_of};
ghost use Rattle.node_cell.specs.Written.{may_write};

use crate::cell::Cell;
use crate::taken::Taken;
use mur_base::NodeName;
use mur_base::limits::LOG_LIMIT;
use mur_disk::Disk;
use mur_journal::Journal;
use node_step::NodeState;
use record_merge::Log;
use std::alloc::Global;
use std::snapshot::Snapshot;

impl<D: Disk> Cell<D> {
    /// A cell with this node and its journal, and an empty log. Only a frontend may be without a journal.
    pub fn start(
        alloc: Global,
        name: NodeName,
        node: NodeState,
        journal: Option<Journal<D>>,
    ) -> Cell<D>
        requires { IsTrue (may_write journal node) }
        ensures name { name_of result ≡ name }
        ensures begun { begun_of result ≡ node }
        ensures node { node_of result ≡ node }
        ensures journal { journal_of result ≡ journal }
        ensures stamp { stamp_of result ≡ 0 }
        ensures log { log_of result ≡ [] }
        ensures ready { fault_of result ≡ None }
    {
        let begun = Snapshot::of(&node);
        Cell {
            name,
            begun,
            node,
            journal,
            stamp: 0,
            log: Log::new(alloc),
            room: LOG_LIMIT as u64,
            fault: None,
        }
    }

    /// The name of the node.
    pub fn name(&self) -> &NodeName
        ensures { result.now ≡ name_of self.now }
    {
        &self.name
    }

    /// What the node took, in order. Stamps rise, and unless a fault has stopped the cell, its node is the replay of the log.
    pub fn log(&self) -> &Log<Taken>
        ensures log { result.now ≡ log_of self.now }
        ensures rises { RisesFrom 0 result.now }
        ensures replays { fault_of self.now ≡ None → ReplaysAs (begun_of self.now) result.now (node_of self.now) }
    {
        &self.log
    }

    /// The stamp of the last step; 0 before the first.
    pub fn stamp(&self) -> u64
        ensures { result ≡ stamp_of self.now }
    {
        self.stamp
    }

    /// The disk of the journal, if the node has one.
    pub fn into_disk(self) -> Option<D>
        ensures { result ≡ option_map disk_of (journal_of self) }
    {
        let Cell { journal, .. } = self;
        match journal {
            Some(journal) => Some(journal.into_disk()),
            None => None,
        }
    }
}
