// A node of the Murder.
ghost use Rattle.std.specs.Prelude.{◌≡◌, Some};
ghost use Rattle.std.specs.Option.{option_copied};
ghost use Rattle.node_step.specs.NodeStep.{as_back};

use back_node::BackNode;
use front_core::Front;
use master_core::Master;

/// The state of a node, by its kind.
#[derive(Drop)]
pub enum NodeState {
    /// A frontend, which speaks to mail clients.
    Front(Front),
    /// A backend, which keeps mailboxes.
    Back(BackNode),
    /// The master, which keeps the table of all mailboxes.
    Master(Master),
}

impl NodeState {
    /// The backend that it is, if it is one.
    #[tactic(auto, unfolding(crate::specs::NodeStep::as_back))]
    pub fn as_back(&self) -> Option<&BackNode>
        ensures { option_copied result ≡ as_back (Some self.now) }
    {
        match self {
            NodeState::Back(home) => Some(home),
            NodeState::Front(_) | NodeState::Master(_) => None,
        }
    }
}
