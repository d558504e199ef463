// Where a mailbox is, and how far a backend is with it.
use crate::copied::Copied;
use crate::list::Bytes;
use crate::memory::Memory;
use crate::name_rules::NodeName;
use std::alloc::Global;

/// A place for mailboxes, written `server!partition`.
#[derive(Drop)]
pub struct Location {
    pub server: NodeName,
    pub partition: Bytes,
}

/// What a mailbox name is to a backend.
#[derive(Drop)]
pub enum Phase {
    /// Made here, and not yet known to be active.
    Creating,
    /// The one writable home.
    Open,
    /// Closed for a transfer or a deletion.
    Closing,
    /// Its content is coming in.
    Receiving,
    /// Its content is whole, and not yet active here.
    Ready,
    /// Moved to this server.
    Pointer(NodeName),
}

impl Copied for Phase {
    fn copy(&self, alloc: Global) -> Result<Phase, Memory> {
        match self {
            Phase::Creating => Ok(Phase::Creating),
            Phase::Open => Ok(Phase::Open),
            Phase::Closing => Ok(Phase::Closing),
            Phase::Receiving => Ok(Phase::Receiving),
            Phase::Ready => Ok(Phase::Ready),
            Phase::Pointer(server) => Ok(Phase::Pointer(server.copy(alloc)?)),
        }
    }
}
