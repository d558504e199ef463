// An input as a log keeps it.
ghost use Rattle.std.specs.Prelude.{◌≡◌, IfOk};
ghost use Rattle.node_cell.specs.Kept.{kept_of};

use mur_base::{Bytes, Copied, Memory, NodeName};
use node_step::NodeInput;
use std::alloc::Global;
use std::marker::Model;
use std::snapshot::Snapshot;

/// What a log keeps of an input: all that its line says. Of a message it keeps the node that sent it.
#[derive(Drop)]
pub enum Kept {
    /// A client opened this connection.
    Opened(u64),
    /// These bytes came from the client of this connection.
    Piece(u64, Bytes),
    /// The client of this connection closed it.
    Hung(u64),
    /// The first message of this node was taken.
    From(NodeName),
}

/// An input that a node took. Contracts see the whole input, its message too.
#[derive(Drop)]
pub struct Taken {
    kept: Kept,
    input: Snapshot<NodeInput>,
}

impl Model for Taken {
    ghost use Rattle.std.specs.Prelude.{◌≡◌};
    ghost use Rattle.node_step.specs.declared.input.NodeInput.{NodeInput};
    ghost use Rattle.node_cell.specs.Kept.{kept_of};

    ghost Value = { NodeInput };

    ghost view = { λ taken. taken.input.value };

    ghost invariant = { λ taken. taken.kept ≡ kept_of taken.input.value };
}

impl Taken {
    /// An input, of which the bytes of a client and the name of a node are copied.
    pub(crate) fn of(alloc: Global, input: &NodeInput) -> Result<Taken, Memory>
        ensures { IfOk result (λ taken. taken ≡ input.now) }
    {
        let kept = kept_of(alloc, input)?;
        Ok(Taken {
            kept,
            input: Snapshot::of(input),
        })
    }

    /// What the log keeps of it.
    pub fn kept(&self) -> &Kept
        ensures { result.now ≡ kept_of self.now }
    {
        &self.kept
    }
}

#[tactic(auto, unfolding(crate::specs::Kept::kept_of))]
fn kept_of(alloc: Global, input: &NodeInput) -> Result<Kept, Memory>
    ensures { IfOk result (λ kept. kept ≡ kept_of input.now) }
{
    match input {
        NodeInput::Opened(conn) => Ok(Kept::Opened(*conn)),
        NodeInput::Piece(conn, bytes) => {
            let bytes = Bytes::from_slice(alloc, bytes.as_slice())?;
            Ok(Kept::Piece(*conn, bytes))
        }
        NodeInput::Hung(conn) => Ok(Kept::Hung(*conn)),
        NodeInput::From(sender, _) => Ok(Kept::From(sender.copy(alloc)?)),
    }
}
