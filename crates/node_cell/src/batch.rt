// A node takes several inputs.
ghost use Rattle.std.specs.Prelude.{◌≡◌, ◌≤◌, ◌<◌, ◌^◌, ◌++◌, ◌∷◌, [], All, IfOk, OnOk, length};
ghost use Rattle.std.specs.Option.{option_to_list};
ghost use Rattle.node_step.specs.NodeStep.{takes};
ghost use Rattle.node_step.specs.Room.{HasRoomToTake};
ghost use Rattle.node_cell.specs.Batch.{HasRoomToTakeAll, last_stamp, steps_behind, turns_of};
ghost use Rattle.node_cell.specs.Replayed.{entries_after, state_after};
ghost use Rattle.node_cell.specs.Stamps.{next_stamp, logged_behind};

use crate::taken::Taken;
use crate::turn::{Turn, Turns};
use crate::write::LONGEST;
use mur_base::{Bytes, Items, Memory};
use node_step::{Effects, NodeInput, NodeState};
use record_merge::{Log, Logged};
use std::alloc::Global;

/// What several steps leave to be done.
#[derive(Drop)]
pub(crate) struct Batch {
    /// The steps, for the log.
    pub(crate) steps: Log<Taken>,
    /// Their entries, for the journal.
    pub(crate) entries: Items<Bytes>,
    /// What they give, for whoever asked for them.
    pub(crate) turns: Turns,
}

/// Takes inputs, each with the stamp that it heard, one after the other. For want of memory the node is spent; an entry of more than 2^30
/// bytes is refused so, too.
pub(crate) fn take_all(
    alloc: Global,
    node: &mut NodeState,
    stamp: u64,
    inputs: Vec<(u64, NodeInput)>,
) -> Result<Batch, Memory>
    requires room { HasRoomToTakeAll node.old inputs.items }
    requires fits { last_stamp stamp inputs.items < 2 ^ 64 }
    ensures node { OnOk result (node.new ≡ state_after node.old (steps_behind stamp inputs.items)) }
    ensures steps { IfOk result (λ batch. batch.steps ≡ steps_behind stamp inputs.items) }
    ensures entries { IfOk result (λ batch. batch.entries ≡ entries_after node.old (steps_behind stamp inputs.items)) }
    ensures short { IfOk result (λ batch. All (λ entry. length entry ≤ 2 ^ 30) batch.entries) }
    ensures turns { IfOk result (λ batch. batch.turns ≡ turns_of node.old (steps_behind stamp inputs.items)) }
{
    let mut batch = Batch {
        steps: Log::new(alloc),
        entries: Items::new(alloc),
        turns: Turns::new(alloc),
    };
    let mut last = stamp;
    for it in inputs {
        let (heard, input) = it;
        last = last.max(heard) + 1;
        take_one(alloc, node, &mut batch, last, heard, input)?;
    }
    Ok(batch)
}

/// Takes one more input, in a step with this stamp.
fn take_one(
    alloc: Global,
    node: &mut NodeState,
    batch: &mut Batch,
    stamp: u64,
    heard: u64,
    input: NodeInput,
) -> Result<(), Memory>
    requires room { HasRoomToTake node.old input }
    requires short { All (λ entry. length entry ≤ 2 ^ 30) batch.old.entries }
    ensures node { OnOk result (node.new ≡ (takes node.old input).state) }
    ensures steps { OnOk result (batch.new.steps ≡ batch.old.steps ++ record { stamp = stamp; heard = heard; input = input } ∷ []) }
    ensures entries { OnOk result (batch.new.entries ≡ batch.old.entries ++ option_to_list (takes node.old input).entry) }
    ensures short { OnOk result (All (λ entry. length entry ≤ 2 ^ 30) batch.new.entries) }
    ensures turns { OnOk result (batch.new.turns ≡ batch.old.turns ++ record { outs = (takes node.old input).outs; stamp = stamp } ∷ []) }
{
    let taken = Taken::of(alloc, &input)?;
    let Effects { entry, outs } = node.takes(alloc, input)?;
    if let Some(entry) = entry {
        if entry.len() > LONGEST {
            return Err(Memory);
        }
        batch.entries.push(entry)?;
    }
    batch.turns.push(Turn { outs, stamp })?;
    batch.steps.push(Logged {
        stamp,
        heard,
        input: taken,
    })
}
