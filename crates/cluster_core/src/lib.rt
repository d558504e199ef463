//! The cluster as one value: it takes the events of a schedule one at a time, and its history, the bytes
//! given to each client and its homes can be read at every moment.
#![tactic(auto)]

mod breaks;
mod carry;
mod cluster;
mod coming;
mod delivery;
mod flow;
mod happens;
mod heal;
mod history;
mod homes;
mod layout;
mod shared_name;
mod start;
mod world;

pub use cluster::{Cluster, HomeRow, HomeRows, headline, run};
pub use layout::Layout;
pub use mark_history::{Mark, Points};
pub use shared_name::SharedName;
pub use world::{Client, World};
