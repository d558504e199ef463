// The disk of a node.
ghost use Rattle.std.specs.Prelude.{◌≡◌, [], ◌∷◌, ◌++◌, IfOk, OnOk};

use mur_base::{Bytes, Memory};
use mur_disk::{MemDisk, mem_disk};
use mur_journal::{Journal, format};
use std::alloc::Global;
use std::marker::Model;

/// The most bytes of an entry.
const LONGEST: usize = 1_073_741_824;

/// The disk of a node, in memory: a journal. Contracts see it as the entries that its bytes are read as, in order.
#[derive(Drop)]
pub struct NodeDisk {
    journal: Journal<MemDisk>,
}

impl Model for NodeDisk {
    ghost use Rattle.std.specs.Prelude.{List, ℕ};
    ghost use Rattle.mur_disk.specs.Disks.{held_of};
    ghost use Rattle.mur_journal.specs.Image.{entries_of};
    ghost use Rattle.mur_journal.specs.Parts.{disk_of};

    ghost Value = { List (List ℕ) };

    ghost view = { λ disk. entries_of (held_of (disk_of disk.journal)).bytes };
}

impl NodeDisk {
    /// A disk with a journal without entries.
    pub fn new(alloc: Global) -> Result<NodeDisk, Memory>
        ensures { IfOk result (λ disk. disk ≡ []) }
    {
        match format(mem_disk(alloc, Bytes::new(alloc))) {
            Ok(journal) => Ok(NodeDisk { journal }),
            // A disk in memory fails for want of memory alone.
            Err(_) => Err(Memory),
        }
    }

    /// Puts an entry behind the others, and syncs. For want of memory the disk is spent, and takes no entry any more; one of more than 2^30
    /// bytes is refused as if memory were wanting.
    pub fn write(&mut self, alloc: Global, entry: &[u8]) -> Result<(), Memory>
        ensures { OnOk result (self.new ≡ self.old ++ entry.now ∷ []) }
    {
        if entry.len() > LONGEST {
            return Err(Memory);
        }
        match self.journal.append(alloc, entry) {
            Ok(()) => Ok(()),
            // For want of memory, now or at an earlier call.
            Err(_) => Err(Memory),
        }
    }
}
