// A backend's step.
ghost use Rattle.std.specs.Prelude.{◌≡◌, IfOk};
ghost use Rattle.std.specs.Option.{option_map};
ghost use Rattle.back_node.specs.Takes.{node_takes};
ghost use Rattle.node_record.specs.BackendEntries.{backend_entry};
ghost use Rattle.node_step.specs.NodeStep.{back_acted, back_takes};
ghost use Rattle.node_step.specs.declared.node.NodeState.TheVariants as node;

use crate::effects::Effects;
use crate::input::NodeInput;
use back_node::BackNode;
use link_msg::{LinkMsg, Outs};
use mur_base::{Bytes, Memory, NodeName};
use node_record::{BackendRecord, encode_backend};
use std::alloc::Global;

/// The bytes of an entry, if there is one.
fn bytes_of(alloc: Global, entry: &Option<BackendRecord>) -> Result<Option<Bytes>, Memory>
    ensures { IfOk result (λ bytes. bytes ≡ option_map backend_entry.text entry.now) }
{
    match entry {
        Some(entry) => Ok(Some(encode_backend(alloc, entry)?)),
        None => Ok(None),
    }
}

/// A node says something to a backend.
fn message_comes(
    alloc: Global,
    home: &mut BackNode,
    from: NodeName,
    message: LinkMsg,
) -> Result<Effects, Memory>
    ensures { IfOk result (λ it. record { state = node.Back home.new; entry = it.entry; outs = it.outs } ≡ back_acted (node_takes home.old from message)) }
{
    let rest = home.plan(alloc, from, message)?;
    let entry = bytes_of(alloc, &rest.entry)?;
    let outs = home.settle(alloc, rest)?;
    Ok(Effects { entry, outs })
}

/// Gives a backend what comes to it. For want of memory the backend is spent.
#[tactic(auto, unfolding(crate::specs::NodeStep::back_takes))]
pub fn back_takes(alloc: Global, home: &mut BackNode, input: NodeInput) -> Result<Effects, Memory>
    ensures { IfOk result (λ it. record { state = node.Back home.new; entry = it.entry; outs = it.outs } ≡ back_takes home.old input) }
{
    match input {
        NodeInput::From(from, message) => message_comes(alloc, home, from, message),
        NodeInput::Opened(_) | NodeInput::Piece(_, _) | NodeInput::Hung(_) => {
            Ok(Effects::unwritten(Outs::new(alloc)))
        }
    }
}
