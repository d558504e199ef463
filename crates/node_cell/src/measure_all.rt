// The stamps of several steps, and how many bytes their lines have.
ghost use Rattle.std.specs.Prelude.{◌≡◌, ◌+◌, ◌<◌, ◌≤◌, ◌^◌, ◌⊎◌, IfSome, IfNone};
ghost use Rattle.node_cell.specs.Batch.{last_stamp, steps_behind};
ghost use Rattle.node_cell.specs.Lines.{log_length};

use crate::measure::room_behind;
use mur_base::NodeName;
use node_step::NodeInput;

/// The last stamp of the steps that take these inputs, and the room behind them.
pub(crate) fn behind_all(
    name: &NodeName,
    last: u64,
    left: u64,
    inputs: &[(u64, NodeInput)],
) -> Option<(u64, u64)>
    ensures none { IfNone result ((2 ^ 64 ≤ last_stamp last inputs.now) ⊎ (left < log_length name.now (steps_behind last inputs.now))) }
    ensures stamp { IfSome result (λ next. (next.0 ≡ last_stamp last inputs.now) × (next.0 < 2 ^ 64)) }
    ensures room { IfSome result (λ next. log_length name.now (steps_behind last inputs.now) + next.1 ≡ left) }
{
    let mut stamp = last;
    let mut room = left;
    let mut rest = inputs;
    while let Some((first, behind)) = rest.split_first() {
        let Some(next) = stamp.max(first.0).checked_add(1) else {
            return None;
        };
        let Some(less) = room_behind(room, name, &first.1) else {
            return None;
        };
        stamp = next;
        room = less;
        rest = behind;
    }
    Some((stamp, room))
}
