// The reply of commands that the server answers at once, whatever mailboxes there are.
ghost use Rattle.std.specs.Prelude.{◌≡◌, IfOk};
ghost use Rattle.mur_model.specs.AtOnce.{told_at_once};

use crate::session::Turn;
use imap_types::{Code, Reply, ReplyLine, ReplyLines, Verdict};
use mur_base::{Bytes, Memory};
use std::alloc::Global;

/// A line, and that the command of this name was carried out.
pub fn told_at_once(alloc: Global, line: ReplyLine, name: &[u8]) -> Result<Turn, Memory>
    ensures { IfOk result (λ turn. turn ≡ told_at_once line name.now) }
{
    let mut lines = ReplyLines::new(alloc);
    lines.push(line)?;
    let verdict = Verdict::Ok(Code::None, Bytes::from_slice(alloc, name)?);
    Ok(Turn {
        session: None,
        reply: Reply { lines, verdict },
    })
}
