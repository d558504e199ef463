// A mailbox whose changes a home tells in place of all rows.
ghost use Rattle.mail_message.specs.Boxes.{LeavesNext};

use crate::content::{change_of, filled, uid_of};
use crate::outs::{put_rows, put_uids};
use case_base::{Fault, Steps, number_of, parts_of, put_steps, wide_number_of};
use mail_delta::{ChangeLog, Delta, Mark, Mirror, all_changes, changes_since};
use mail_message::{Change, MailBox, Row, Snapshot};
use mur_base::{Bytes, Memory};
use std::alloc::Global;

/// A mailbox, its log, a snapshot that was kept, and the mailbox as a frontend has it.
#[derive(Drop)]
struct Watched {
    content: MailBox,
    log: ChangeLog,
    kept: Snapshot,
    mirror: Mirror,
}

/// Takes steps of a mailbox of so many messages, of which a snapshot is kept, and prints what each gives.
pub fn put(alloc: Global, count: &str, steps: &[&str], out: &mut Bytes) -> Result<(), Fault> {
    let mut watched = begun(alloc, filled(alloc, number_of(count)?)?)?;
    put_steps(alloc, &mut watched, steps, out)
}

fn begun(alloc: Global, content: MailBox) -> Result<Watched, Memory> {
    let kept = content.look(alloc)?;
    Ok(Watched {
        content,
        log: ChangeLog::new(alloc),
        kept,
        mirror: Mirror::new(alloc),
    })
}

impl Steps for Watched {
    fn take_step(&mut self, alloc: Global, step: &str, out: &mut Bytes) -> Result<(), Fault> {
        match step.split_once(' ') {
            None => self.mark(alloc, step, out),
            Some(("tell", since)) => self.put_changes(alloc, since, out),
            Some(("mirror", since)) => self.put_mirrored(alloc, since, out),
            Some(("forget", mark)) => self.forget(alloc, wide_number_of(mark)?),
            _ => {
                let words = parts_of(alloc, step, " ")?;
                self.change(alloc, change_of(alloc, words.as_slice())?)
            }
        }
    }
}

impl Watched {
    /// Keeps a snapshot, or marks the moment and prints its number.
    fn mark(&mut self, alloc: Global, step: &str, out: &mut Bytes) -> Result<(), Fault> {
        match step {
            "keep" => {
                self.kept = self.content.look(alloc)?;
                Ok(())
            }
            "mark" => match self.log.mark(alloc)? {
                Some(mark) => Ok(put_number_of(alloc, mark, out)?),
                None => Err(Fault::Unreadable("no mark is left")),
            },
            _ => Err(Fault::Unreadable("no such step")),
        }
    }

    fn forget(&mut self, alloc: Global, mark: u64) -> Result<(), Fault> {
        Ok(self.log.forget(alloc, Mark(mark))?)
    }

    /// The home notes the message that changes, and changes it.
    fn change(&mut self, alloc: Global, change: Change) -> Result<(), Fault>
        requires { LeavesNext change }
    {
        if let Some(uid) = uid_of(&change) {
            self.log.note(alloc, &self.content, uid)?;
        }
        Ok(self.content.apply(change)?)
    }

    /// Prints what changed since a moment.
    fn put_changes(&self, alloc: Global, since: &str, out: &mut Bytes) -> Result<(), Fault> {
        match self.delta(alloc, since)? {
            Some(delta) => Ok(put_delta(alloc, &delta, out)?),
            None => Ok(out.extend_from_slice(b"not kept")?),
        }
    }

    /// Tells the frontend what changed since a moment, and prints what it then has.
    fn put_mirrored(&mut self, alloc: Global, since: &str, out: &mut Bytes) -> Result<(), Fault> {
        let Some(delta) = self.delta(alloc, since)? else {
            return Ok(out.extend_from_slice(b"not kept")?);
        };
        self.mirror.apply(alloc, &delta)?;
        Ok(put_mirror(alloc, &self.mirror, out)?)
    }

    /// What changed since nothing was there, since the kept snapshot, or since a mark that is kept.
    fn delta(&self, alloc: Global, since: &str) -> Result<Option<Delta>, Fault> {
        match since {
            "nothing" => Ok(Some(all_changes(alloc, &self.content)?)),
            "kept" => Ok(Some(changes_since(alloc, &self.kept, &self.content)?)),
            mark => self.delta_of_log(alloc, wide_number_of(mark)?),
        }
    }

    fn delta_of_log(&self, alloc: Global, mark: u64) -> Result<Option<Delta>, Fault> {
        let size = self.content.look(alloc)?.size;
        Ok(self.log.since(alloc, Mark(mark), &self.content, size)?)
    }
}

fn put_number_of(alloc: Global, mark: Mark, out: &mut Bytes) -> Result<(), Memory> {
    let number = mark.0;
    out.extend_from_slice(format!(in alloc; "{number}")?.as_bytes())
}

/// Prints UIDVALIDITY, UIDNEXT, the bytes of all bodies, the rows that are new or other ones, and the UIDs that are gone.
fn put_delta(alloc: Global, delta: &Delta, out: &mut Bytes) -> Result<(), Memory> {
    put_told(
        alloc,
        (delta.serial, delta.next, delta.size),
        delta.changed.as_slice(),
        out,
    )?;
    if !delta.gone.is_empty() {
        out.extend_from_slice(b" gone")?;
        put_uids(alloc, delta.gone.as_slice(), out)?;
    }
    Ok(())
}

fn put_mirror(alloc: Global, mirror: &Mirror, out: &mut Bytes) -> Result<(), Memory> {
    let numbers = (mirror.serial(), mirror.next(), mirror.size());
    put_told(alloc, numbers, mirror.rows(), out)
}

fn put_told(
    alloc: Global,
    (serial, next, size): (u32, u32, u64),
    rows: &[Row],
    out: &mut Bytes,
) -> Result<(), Memory> {
    out.extend_from_slice(format!(in alloc; "{serial} {next} {size}")?.as_bytes())?;
    put_rows(alloc, rows, out)
}
