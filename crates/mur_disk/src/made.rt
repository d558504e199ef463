// A disk in memory is made.
ghost use Rattle.mur_disk.specs.Crash.{Only};
ghost use Rattle.mur_disk.specs.Disks.{held_of};
ghost use Rattle.mur_disk.specs.Memory.{IsStill, MayLeave};

use crate::memory::MemDisk;
use mur_base::Bytes;
use std::alloc::Global;

/// A disk with these bytes, and nothing pending. It takes no memory.
#[tactic(auto, using(crate::proofs::Done::leaves_still))]
pub fn mem_disk(alloc: Global, image: Bytes) -> MemDisk
    ensures still { IsStill image (held_of result) }
    ensures durable { Only (held_of result).bytes (MayLeave (held_of result)) }
{
    MemDisk::new(alloc, image)
}
