// A client's CREATE or DELETE that is under way.
ghost use Rattle.std.specs.Prelude.{◌≡◌};
ghost use Rattle.name_flows.specs.Running.{is_same_stage};

use mur_base::{AskId, NodeName};

/// The answer that a flow waits for.
#[derive(Clone, Copy, Debug, PartialEq, Eq)]
pub enum Stage {
    /// That to RESERVE, for a CREATE.
    Reserving,
    /// That to ACTIVATE, for a CREATE: the mailbox is made.
    Making,
    /// That to DEACTIVATE, for a DELETE.
    Deactivating,
    /// That to DELETE, for a DELETE: the mailbox is closed.
    Deleting,
}

impl Stage {
    /// Whether it is this stage.
    pub fn is(self, other: Stage) -> bool
        ensures { result ≡ is_same_stage self other }
    {
        match self {
            Stage::Reserving => matches!(other, Stage::Reserving),
            Stage::Making => matches!(other, Stage::Making),
            Stage::Deactivating => matches!(other, Stage::Deactivating),
            Stage::Deleting => matches!(other, Stage::Deleting),
        }
    }
}

/// A CREATE or DELETE under way, which is answered when its last line is.
#[derive(Drop)]
pub struct Flow {
    /// The frontend that asked.
    pub front: NodeName,
    /// The command for which it asked.
    pub ask: AskId,
    pub stage: Stage,
}
