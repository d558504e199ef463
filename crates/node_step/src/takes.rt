// A step of a node, whichever its kind.
ghost use Rattle.std.specs.Prelude.{◌≡◌, IfOk};
ghost use Rattle.node_step.specs.NodeStep.{takes};
ghost use Rattle.node_step.specs.Room.{HasRoomToTake};

use crate::back::back_takes;
use crate::effects::Effects;
use crate::front::front_takes;
use crate::input::NodeInput;
use crate::master::master_takes;
use crate::node::NodeState;
use mur_base::Memory;
use std::alloc::Global;

impl NodeState {
    /// Takes an input. What the step leaves to be done is for the caller. For want of memory the node is spent.
    #[tactic(auto, unfolding(crate::specs::NodeStep::takes, crate::specs::Room::HasRoomToTake))]
    pub fn takes(&mut self, alloc: Global, input: NodeInput) -> Result<Effects, Memory>
        requires room { HasRoomToTake self.old input }
        ensures { IfOk result (λ it. record { state = self.new; entry = it.entry; outs = it.outs } ≡ takes self.old input) }
    {
        match self {
            NodeState::Front(front) => front_takes(alloc, front, input),
            NodeState::Back(home) => back_takes(alloc, home, input),
            NodeState::Master(master) => master_takes(alloc, master, input),
        }
    }
}
