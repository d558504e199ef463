//! The master of the Murder: the table of all mailboxes, and what each line of MUPDATE makes of it (RFC 3656, 4).
//!
//! A line comes from a node, over its link, or from outside, over a connection of its own; [`Sender`] says which. The
//! table and the sender decide what a command does: `specs/Refusals.antt` has the tests of each command in their order, and
//! `specs/Replies.antt` the change of the table and the answers. A change is told to each sender of an UPDATE, under that tag
//! (`specs/Changes.antt`), and is one entry of the master's disk.
//!
//! [`Master::plan`] does a whole step in memory. Its entry goes to the disk, and then [`Master::settle`] hands out what goes out
//! (`specs/Step.antt`). A master starts from the entries of its disk (`specs/Boot.antt`), without streams or connections.
//!
//! An outside connection is greeted, and its bytes are cut into lines (`specs/Outside.antt`). It changes no record.
//! Bytes that are no command are answered BAD, and the connection goes on; after UPDATE it may send NOOP and LOGOUT alone; LOGOUT ends it.
#![tactic(auto)]

mod activate;
mod boot;
mod changes;
mod cutting;
mod deactivate;
mod delete;
mod find;
mod greeting;
mod intake;
mod laws;
mod line;
mod linked;
mod list;
mod master;
mod outside;
mod plan;
mod records;
mod refusal;
mod reply;
mod reserve;
mod sender;
mod step;
mod streams;
mod update;
mod whose;

pub use laws::{
    a_line_is_its_command, a_record_is_changed_by_its_server, an_outside_line_changes_no_record,
};
pub use master::Master;
pub use outside::Outside;
pub use plan::MasterPlan;
pub use refusal::Refusal;
pub use reply::{Answers, Reply};
pub use sender::Sender;
pub use whose::a_line_is_answered_under_its_tag;
