// The line of a STATUS (RFC 9051, 7.3.3).
ghost use Rattle.std.specs.Prelude.{◌≡◌, ◌++◌, OnOk};
ghost use Rattle.imap_reply.specs.StatusLine.{count_text, more_counts_text, counts_text, status_line};

use crate::mailbox::put_mailbox;
use imap_text::put_item;
use imap_types::StatusCount;
use mur_base::{Bytes, Memory, put_number};

/// Writes how much of each item a mailbox has.
#[tactic(auto, using(std::proofs::lemmas::Grind::common_steps), unfolding(crate::specs::StatusLine::status_line))]
pub fn put_status(name: &[u8], counts: &[StatusCount], out: &mut Bytes) -> Result<(), Memory>
    ensures { OnOk result (out.new ≡ out.old ++ status_line name.now counts.now) }
{
    out.extend_from_slice(b"* STATUS ")?;
    put_mailbox(name, out)?;
    out.extend_from_slice(b" (")?;
    put_counts(counts, out)?;
    out.extend_from_slice(b")\r\n")
}

#[tactic(auto, using(std::proofs::lemmas::Grind::common_steps), unfolding(crate::specs::StatusLine::counts_text))]
fn put_counts(counts: &[StatusCount], out: &mut Bytes) -> Result<(), Memory>
    ensures { OnOk result (out.new ≡ out.old ++ counts_text counts.now) }
{
    match counts {
        [] => Ok(()),
        [count, more @ ..] => {
            put_count(*count, out)?;
            put_more_counts(more, out)
        }
    }
}

/// Writes counts, a space before each.
#[tactic(auto, using(std::proofs::lemmas::Grind::common_steps), unfolding(crate::specs::StatusLine::more_counts_text))]
fn put_more_counts(counts: &[StatusCount], out: &mut Bytes) -> Result<(), Memory>
    ensures { OnOk result (out.new ≡ out.old ++ more_counts_text counts.now) }
{
    for count in counts {
        out.push(b' ')?;
        put_count(*count, out)?;
    }
    Ok(())
}

#[tactic(auto, using(std::proofs::lemmas::Grind::common_steps), unfolding(crate::specs::StatusLine::count_text))]
fn put_count(count: StatusCount, out: &mut Bytes) -> Result<(), Memory>
    ensures { OnOk result (out.new ≡ out.old ++ count_text count) }
{
    put_item(count.item, out)?;
    out.push(b' ')?;
    put_number(count.count, out)
}
