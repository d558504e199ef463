//! The disk of a node: a journal on a disk in memory, which contracts see as its entries. What an entry means is no matter here.
#![tactic(auto)]

mod disk;

pub use disk::NodeDisk;
