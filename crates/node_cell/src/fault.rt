// Why a turn was refused.
use thiserror::Error;

/// Why a turn was refused. Its outputs are gone, and the log is as it was.
#[derive(Clone, Copy, Debug, PartialEq, Eq, Error)]
pub enum CellFault {
    /// The journal's disk failed, now or at an earlier turn. The cell stays down.
    #[error("the disk failed")]
    Down,
    /// The lines of the log would pass [`LOG_LIMIT`](mur_base::limits::LOG_LIMIT) bytes, or the stamp its type. The cell is as
    /// it was.
    #[error("the log is full")]
    LogFull,
    /// The allocator had no room, now or at an earlier turn. The cell stays spent.
    #[error("out of memory")]
    Memory,
}
