//! A disk whose writes a crash may tear.
//!
//! A [`Disk`] tells three facts: what a read gives; what a crash now may leave; and what a crash since an earlier moment might
//! have left, so that a contract speaks of each moment inside a call. A sync makes durable what was written. Each disk counts
//! its faults, and no call answers `Failed` but where the count rose.
//!
//! [`MemDisk`] is such a disk in memory, which crashes as a number chooses; [`StopDisk`] stops inside one of its calls.
#![tactic(auto)]

mod countdown;
mod disk;
mod fault;
mod held;
mod image;
mod made;
mod memory;
mod past;
mod stop;

pub use countdown::Countdown;
pub use disk::{Disk, write_synced};
pub use fault::DiskFault;
pub use held::{Held, Pending};
pub use image::Image;
pub use made::mem_disk;
pub use memory::MemDisk;
pub use past::Past;
pub use stop::{StopDisk, stop_disk};
