//! One step of a node, whichever its kind: an input comes to it, it changes its own state, and leaves to be done what is written to its disk and what goes
//! out then. A cluster that runs its nodes one at a time and a thread that runs one of them take the very same step.
#![tactic(auto)]

mod back;
mod effects;
mod front;
mod input;
mod master;
mod node;
mod takes;

pub use effects::Effects;
pub use input::NodeInput;
pub use node::NodeState;
