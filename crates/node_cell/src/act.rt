// A node takes an input, and writes the entry of its step.
ghost use Rattle.std.specs.Prelude.{◌≡◌, ◌++◌, ◌∷◌, [], IsTrue, IfSome, IfOk, OnOk};
ghost use Rattle.std.specs.Option.{option_to_list};
ghost use Rattle.node_step.specs.NodeStep.{takes};
ghost use Rattle.node_step.specs.Room.{HasRoomToTake};
ghost use Rattle.node_cell.specs.Faults.{HasWriteCause};
ghost use Rattle.node_cell.specs.Written.{entries_on, tells_on, faults_on, may_write, IsDurable};

use crate::fault::CellFault;
use crate::write::write;
use link_msg::Outs;
use mur_disk::Disk;
use mur_journal::Journal;
use node_step::{NodeInput, NodeState};
use std::alloc::Global;

/// Takes an input; the outputs come once the entry is written.
pub(crate) fn act<D: Disk>(
    alloc: Global,
    node: &mut NodeState,
    journal: &mut Option<Journal<D>>,
    input: NodeInput,
) -> Result<Outs, CellFault>
    requires room { HasRoomToTake node.old input }
    requires writes { IsTrue (may_write journal.old node.old) }
    ensures node { OnOk result (node.new ≡ (takes node.old input).state) }
    ensures outs { IfOk result (λ outs. outs ≡ (takes node.old input).outs) }
    ensures added { IsTrue (tells_on journal.old)
        → OnOk result (entries_on journal.new ≡ entries_on journal.old ++ option_to_list (takes node.old input).entry) }
    ensures durable { IsTrue (tells_on journal.old)
        → OnOk result (IfSome (takes node.old input).entry (λ entry. IsDurable journal.new (entries_on journal.old ++ entry ∷ []))) }
    ensures writes { OnOk result (IsTrue (may_write journal.new node.new)) }
    ensures told { tells_on journal.new ≡ tells_on journal.old }
    ensures cause { HasWriteCause (faults_on journal.old) (faults_on journal.new) result }
{
    match node.takes(alloc, input) {
        Ok(effects) => match write(alloc, journal, &effects.entry) {
            Ok(()) => Ok(effects.outs),
            Err(fault) => Err(fault),
        },
        Err(_) => Err(CellFault::Memory),
    }
}
