// What a frontend knows where a command of it goes on.
use feed_core::Replica;
use mur_base::{AskId, NodeName};
use std::alloc::Global;

/// What a command is carried on by, beside its session.
#[derive(Clone, Copy)]
pub struct Routes<'a> {
    pub alloc: Global,
    /// What the frontend was told of the master's table.
    pub replica: &'a Replica,
    /// The master.
    pub master: &'a NodeName,
    /// The server of a new mailbox without a name above it.
    pub first: &'a NodeName,
    /// The number of the command.
    pub id: AskId,
}
