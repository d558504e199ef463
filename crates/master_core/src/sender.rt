// Who sends a line to the master.
ghost use Rattle.std.specs.Prelude.{◌≡◌, IfOk};
ghost use Rattle.master_core.specs.Senders.{is_backend, is_server, sent_to};

use link_msg::{LinkMsg, Out};
use mur_base::{Bytes, Copied, Location, Memory, NodeName};
use std::alloc::Global;

/// Who sends a line to the master.
#[derive(Drop)]
pub enum Sender {
    /// A backend, over its link.
    Backend(NodeName),
    /// A frontend, over its link.
    Frontend(NodeName),
    /// The client of this connection, from outside.
    Outside(u64),
}

impl Sender {
    /// Whether it is a backend. Only a backend changes records.
    pub fn is_backend(&self) -> bool
        ensures { result ≡ is_backend self.now }
    {
        matches!(self, Sender::Backend(_))
    }

    /// Whether the location is at this backend.
    pub fn is_server(&self, place: &Location) -> bool
        ensures { result ≡ is_server self.now place.now }
    {
        match self {
            Sender::Backend(node) => *node == place.server,
            Sender::Frontend(_) | Sender::Outside(_) => false,
        }
    }

    /// A line for it.
    pub fn line(&self, alloc: Global, line: Bytes) -> Result<Out, Memory>
        ensures { IfOk result (λ out. out ≡ sent_to self.now line) }
    {
        match self {
            Sender::Backend(node) | Sender::Frontend(node) => {
                Ok(Out::Link(node.copy(alloc)?, LinkMsg::Line(line)))
            }
            Sender::Outside(conn) => Ok(Out::Client(*conn, line)),
        }
    }
}
