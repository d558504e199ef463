// What a command of a selected session leaves of it.
ghost use Rattle.std.specs.Prelude.{◌≡◌, ◌++◌, IfOk, OnOk};
ghost use Rattle.mur_model.specs.Selected.{gone, with_news};

use crate::news::Told;
use crate::session::{Sess, Turn};
use crate::view::View;
use imap_types::{Bye, Reply, ReplyLine, ReplyLines, Verdict};
use mail_message::OrderedRows;
use mur_base::{Copied, Memory};
use std::alloc::Global;

/// The mailbox is gone, and the session ends (RFC 9051, 7.1.5).
pub fn gone(alloc: Global) -> Result<Turn, Memory>
    ensures { IfOk result (λ turn. turn ≡ gone) }
{
    let mut lines = ReplyLines::new(alloc);
    lines.push(ReplyLine::Bye(Bye::Gone))?;
    Ok(Turn {
        session: Some(Sess::Ended),
        reply: Reply {
            lines,
            verdict: Verdict::Nothing,
        },
    })
}

/// The reply with news behind its own lines, and the view that was told.
pub fn with_news(
    alloc: Global,
    view: &View,
    lines: ReplyLines,
    told: Told,
    verdict: Verdict,
) -> Result<Turn, Memory>
    ensures { IfOk result (λ turn. turn ≡ with_news view.now lines told verdict) }
{
    let Told { lines: news, rows } = told;
    let lines = joined(lines, news)?;
    let view = view_of(alloc, view, rows)?;
    Ok(Turn {
        session: Some(Sess::Selected(view)),
        reply: Reply { lines, verdict },
    })
}

/// A view with other rows.
fn view_of(alloc: Global, view: &View, rows: OrderedRows) -> Result<View, Memory>
    ensures { IfOk result (λ later. later ≡ record view.now { rows = rows }) }
{
    Ok(View {
        user: view.user.copy(alloc)?,
        name: view.name.copy(alloc)?,
        serial: view.serial,
        is_writable: view.is_writable,
        rows,
    })
}

/// Lines with more behind them.
fn joined(lines: ReplyLines, more: ReplyLines) -> Result<ReplyLines, Memory>
    ensures { IfOk result (λ all. all ≡ lines ++ more) }
{
    let mut lines = lines;
    put_all(&mut lines, more)?;
    Ok(lines)
}

/// Puts lines behind others.
pub fn put_all(lines: &mut ReplyLines, more: ReplyLines) -> Result<(), Memory>
    ensures { OnOk result (lines.new ≡ lines.old ++ more) }
{
    for line in more.into_vec() {
        lines.push(line)?;
    }
    Ok(())
}
