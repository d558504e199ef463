// A frontend's step.
ghost use Rattle.std.specs.Prelude.{◌≡◌, None, IfOk};
ghost use Rattle.node_step.specs.NodeStep.{front_acted, front_takes};
ghost use Rattle.node_step.specs.Room.{FrontHasRoom};
ghost use Rattle.node_step.specs.declared.node.NodeState.TheVariants as node;

use crate::effects::Effects;
use crate::input::NodeInput;
use front_core::Front;
use link_msg::Outs;
use mur_base::Memory;
use std::alloc::Global;

/// What goes out where something comes to a frontend.
#[tactic(auto, unfolding(crate::specs::NodeStep::front_takes, crate::specs::Room::FrontHasRoom))]
fn outs_of(alloc: Global, front: &mut Front, input: NodeInput) -> Result<Outs, Memory>
    requires room { FrontHasRoom front.old input }
    ensures { IfOk result (λ outs. record { state = node.Front front.new; entry = None; outs = outs } ≡ front_takes front.old input) }
{
    match input {
        NodeInput::Opened(conn) => front.connect(alloc, conn),
        NodeInput::Piece(conn, bytes) => front.bytes_in(alloc, conn, bytes.as_slice()),
        NodeInput::Hung(conn) => {
            front.hang(conn);
            Ok(Outs::new(alloc))
        }
        NodeInput::From(node, message) => front.deliver(alloc, &node, message),
    }
}

/// Gives a frontend what comes to it. It has no disk. For want of memory the frontend is spent.
pub fn front_takes(alloc: Global, front: &mut Front, input: NodeInput) -> Result<Effects, Memory>
    requires room { FrontHasRoom front.old input }
    ensures { IfOk result (λ it. record { state = node.Front front.new; entry = it.entry; outs = it.outs } ≡ front_takes front.old input) }
{
    let outs = outs_of(alloc, front, input)?;
    Ok(Effects::unwritten(outs))
}
