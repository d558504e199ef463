// The rows that differ from their messages.
ghost use Rattle.std.specs.Prelude.{◌≡◌, IfOk};
ghost use Rattle.backend_core.specs.Flags.{differs, differing};

use mail_message::{MailBox, Row, Rows};
use mur_base::{Copied, Memory};
use std::alloc::Global;

/// Those of some rows whose message has other flags. Each takes time logarithmic in the mailbox.
pub fn differing(alloc: Global, content: &MailBox, rows: &[Row]) -> Result<Rows, Memory>
    ensures { IfOk result (λ made. made ≡ differing content.now rows.now) }
{
    let mut made = Rows::new(alloc);
    for row in rows {
        if differs(content, row) {
            made.push(row.copy(alloc)?)?;
        }
    }
    Ok(made)
}

#[tactic(auto, unfolding(crate::specs::Flags::differs_from))]
fn differs(content: &MailBox, row: &Row) -> bool
    ensures { result ≡ differs content.now row.now }
{
    match content.find(row.uid) {
        Some(message) => !message.flags.is_same(&row.flags),
        None => false,
    }
}
