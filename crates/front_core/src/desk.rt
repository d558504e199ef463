// What a frontend works with for one of its connections.
ghost use Rattle.std.specs.Prelude.{◌≡◌, ◌+◌, ◌<◌, ◌^◌};
ghost use Rattle.front_core.specs.Ups.{is_up};

use crate::ups::Ups;
use asking_core::Routes;
use feed_core::Replica;
use mur_base::{AskId, NodeName};
use mur_model::Setting;
use std::alloc::Global;

/// What a step of a connection reads beside the connection itself.
#[derive(Clone, Copy)]
pub struct Desk<'a> {
    pub alloc: Global,
    /// The users, and the date of a message that comes without one.
    pub setting: &'a Setting,
    /// What the frontend was told of the master's table.
    pub replica: &'a Replica,
    /// The master.
    pub master: &'a NodeName,
    /// The server of a new mailbox without a name above it.
    pub first: &'a NodeName,
    /// The nodes to which the frontend's link is up.
    pub ups: &'a Ups,
    /// The number of the connection.
    pub conn: u64,
}

impl<'a> Desk<'a> {
    /// Whether the link to a node is up.
    #[tactic(auto, unfolding(crate::specs::Ups::is_up))]
    pub fn reaches(self, node: &NodeName) -> bool
        ensures { result ≡ is_up self.entry.ups.now node.now }
    {
        self.ups.contains_key(node)
    }

    /// By what the next command of the connection is carried on, behind so many that were answered.
    pub fn routes(self, answered: u64) -> Routes<'a>
        requires room { answered + 1 < 2 ^ 64 }
        ensures records { result.replica.now.records ≡ self.entry.replica.now.records }
        ensures master { result.master.now ≡ self.entry.master.now }
        ensures first { result.first.now ≡ self.entry.first.now }
        ensures id { result.id ≡ record { conn = self.entry.conn; command = answered + 1 } }
    {
        Routes {
            alloc: self.alloc,
            replica: self.replica,
            master: self.master,
            first: self.first,
            id: AskId {
                conn: self.conn,
                command: answered + 1,
            },
        }
    }
}
