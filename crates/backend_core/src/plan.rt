// What a backend's step comes to.
use crate::op_plan::{Entries, Telling};
use mur_base::{AskId, NodeName};

/// An answer that goes out when the entries of its step are carried out.
#[derive(Drop)]
pub struct Owed {
    /// The frontend that asked.
    pub to: NodeName,
    /// The command for which it asked.
    pub id: AskId,
    pub telling: Telling,
}

/// A step that isn't carried out yet. Its entries go to the disk before `settle` carries it out.
#[derive(Drop)]
pub struct BackPlan {
    /// What changes, and nothing else does.
    pub entries: Entries,
    pub owed: Option<Owed>,
}
