// A copy of what is asked: a command may be asked anew, so each ask has its own.
ghost use Rattle.std.specs.Prelude.{◌≡◌, IfOk};

use link_msg::Op;
use mur_base::{Bytes, Copied, Memory};
use std::alloc::Global;

/// A copy of an operation. The bodies of messages are copied, too.
pub fn copied_op(alloc: Global, op: &Op) -> Result<Op, Memory>
    ensures { IfOk result (λ copy. copy ≡ op.now) }
{
    match op {
        Op::Look => Ok(Op::Look),
        Op::Read(uids, sees) => Ok(Op::Read(uids.copy(alloc)?, *sees)),
        Op::Summaries(uids) => Ok(Op::Summaries(uids.copy(alloc)?)),
        Op::Flags(uids, mode, flags) => {
            Ok(Op::Flags(uids.copy(alloc)?, *mode, flags.copy(alloc)?))
        }
        Op::Expunge(None) => Ok(Op::Expunge(None)),
        Op::Expunge(Some(uids)) => Ok(Op::Expunge(Some(uids.copy(alloc)?))),
        Op::Append(messages) => Ok(Op::Append(messages.copy(alloc)?)),
        Op::Create => Ok(Op::Create),
        Op::Delete => Ok(Op::Delete),
        Op::Xfer(server, partition) => Ok(Op::Xfer(
            server.copy(alloc)?,
            Bytes::from_slice(alloc, partition.as_slice())?,
        )),
    }
}
