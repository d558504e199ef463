// Streams: a sender is one from its UPDATE on (RFC 3656, 4.11).
ghost use Rattle.std.specs.Prelude.{◌≡◌, ◌++◌, OnOk};
ghost use Rattle.master_core.specs.Streams.{is_stream, streaming, without, close_outs, may_follow_update, stream_step};

use crate::master::Master;
use crate::outside::Outside;
use crate::sender::Sender;
use link_msg::{Out, Outs};
use mupdate_codec::{MCommand, Tag};
use mur_base::{Copied, Memory};
use std::alloc::Global;

/// How a command changes its sender's stream.
#[derive(Clone, Copy, Debug, PartialEq, Eq)]
pub enum StreamStep {
    /// It stays a stream, or none.
    Stays,
    /// It is a stream from now on, which is told each change.
    Begins,
    /// It is no stream any more; a connection from outside is closed.
    Ends,
}

/// How a command changes its sender's stream.
pub fn stream_step(command: &MCommand) -> StreamStep
    ensures { result ≡ stream_step command.now }
{
    match command {
        MCommand::Update => StreamStep::Begins,
        MCommand::Logout => StreamStep::Ends,
        _ => StreamStep::Stays,
    }
}

/// Whether a command may come after UPDATE.
pub fn may_follow_update(command: &MCommand) -> bool
    ensures { result ≡ may_follow_update command.now }
{
    matches!(command, MCommand::Noop | MCommand::Logout)
}

/// Closes the connection of an outside sender.
pub fn put_close(from: &Sender, outs: &mut Outs) -> Result<(), Memory>
    ensures { OnOk result (outs.new ≡ outs.old ++ close_outs from.now) }
{
    match from {
        Sender::Backend(_) | Sender::Frontend(_) => Ok(()),
        Sender::Outside(conn) => outs.push(Out::Close(*conn)),
    }
}

impl Master {
    /// Whether the sender has sent UPDATE. Logarithmic in the streams.
    #[tactic(auto, unfolding(crate::specs::Streams::is_stream))]
    pub fn is_stream(&self, from: &Sender) -> bool
        ensures { result ≡ is_stream self.now from.now }
    {
        match from {
            Sender::Backend(node) | Sender::Frontend(node) => self.streams.contains_key(node),
            Sender::Outside(conn) => self.watchers.contains_key(conn),
        }
    }

    /// From here on the sender is told each change under this tag.
    #[tactic(auto, unfolding(crate::specs::Streams::streaming))]
    pub fn begin_stream(&mut self, alloc: Global, from: &Sender, tag: Tag) -> Result<(), Memory>
        ensures { OnOk result (self.new ≡ streaming self.old from.now tag) }
    {
        match from {
            Sender::Backend(node) | Sender::Frontend(node) => {
                self.streams.insert(node.copy(alloc)?, tag)?;
            }
            Sender::Outside(conn) => {
                self.watchers.insert(*conn, tag)?;
            }
        }
        Ok(())
    }

    /// The sender's link or connection has ended: its stream ends, and an outside connection keeps nothing. It takes no memory.
    #[tactic(auto, unfolding(crate::specs::Streams::without))]
    pub fn ended(&mut self, from: &Sender)
        ensures { self.new ≡ without self.old from.now }
    {
        match from {
            Sender::Backend(node) | Sender::Frontend(node) => {
                self.streams.remove(node);
            }
            Sender::Outside(conn) => {
                self.watchers.remove(conn);
                if let Some(connection) = self.outside.get_mut(conn) {
                    *connection = Outside::Ended;
                }
            }
        }
    }
}
