// The master's step.
ghost use Rattle.std.specs.Prelude.{◌≡◌, IfOk};
ghost use Rattle.std.specs.Option.{option_map};
ghost use Rattle.node_record.specs.MasterEntries.{master_entry};
ghost use Rattle.node_step.specs.NodeStep.{master_hears, master_takes};
ghost use Rattle.node_step.specs.declared.node.NodeState.TheVariants as node;

use crate::effects::Effects;
use crate::input::NodeInput;
use link_msg::{LinkMsg, Outs};
use master_core::{Master, Sender};
use mur_base::{Bytes, Memory, NodeName};
use node_record::{MasterRecord, encode_master};
use std::alloc::Global;

/// The bytes of an entry, if there is one.
fn bytes_of(alloc: Global, entry: &Option<MasterRecord>) -> Result<Option<Bytes>, Memory>
    ensures { IfOk result (λ bytes. bytes ≡ option_map master_entry.text entry.now) }
{
    match entry {
        Some(entry) => Ok(Some(encode_master(alloc, entry)?)),
        None => Ok(None),
    }
}

/// A node says something to the master.
fn message_comes(
    alloc: Global,
    master: &mut Master,
    name: NodeName,
    message: LinkMsg,
) -> Result<Effects, Memory>
    ensures { IfOk result (λ it. record { state = node.Master master.new; entry = it.entry; outs = it.outs } ≡ master_hears master.old name message) }
{
    let plan = master.node_says(alloc, name, message)?;
    let entry = bytes_of(alloc, &plan.entry)?;
    let outs = master.settle(plan);
    Ok(Effects { entry, outs })
}

/// Gives the master what comes to it. A client from outside is greeted, and each line of its bytes is answered; LOGOUT or a close
/// ends its connection (RFC 3656). It changes no record, so that nothing of it is written. A line of another node is answered to that node. For want of
/// memory the master is spent.
#[tactic(auto, unfolding(crate::specs::NodeStep::master_takes))]
pub fn master_takes(alloc: Global, master: &mut Master, input: NodeInput) -> Result<Effects, Memory>
    ensures { IfOk result (λ it. record { state = node.Master master.new; entry = it.entry; outs = it.outs } ≡ master_takes master.old input) }
{
    match input {
        NodeInput::Opened(conn) => Ok(Effects::unwritten(master.connect(alloc, conn)?)),
        NodeInput::Piece(conn, bytes) => {
            let outs = master.bytes_in(alloc, conn, bytes.as_slice())?;
            Ok(Effects::unwritten(outs))
        }
        NodeInput::Hung(conn) => {
            master.ended(&Sender::Outside(conn));
            Ok(Effects::unwritten(Outs::new(alloc)))
        }
        NodeInput::From(name, message) => message_comes(alloc, master, name, message),
    }
}
