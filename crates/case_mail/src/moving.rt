// A mailbox on its way from its giver to its taker.
ghost use Rattle.mail_message.specs.Boxes.{LeavesNext};

use crate::content::{change_of, filled, uid_of};
use crate::outs::put_row;
use case_base::{Fault, Steps, number_of, parts_of, put_field, put_steps};
use mail_batch::{Intake, Sweep};
use mail_message::{Change, MailBox, Message};
use mur_base::{Bytes, Memory};
use std::alloc::Global;

/// A mailbox on its way: the giver's, what is left of it, and what its taker has.
#[derive(Drop)]
struct Moving {
    giver: MailBox,
    sweep: Sweep,
    intake: Intake,
}

/// How many changes of each kind a batch has.
#[derive(Clone, Copy)]
struct Kinds {
    put: u32,
    flagged: u32,
    gone: u32,
}

/// Takes steps of a mailbox of so many messages, which moves from the first step on, and prints what each gives and what its taker ends with.
pub fn put(alloc: Global, count: &str, steps: &[&str], out: &mut Bytes) -> Result<(), Fault> {
    let mut moving = begun(alloc, filled(alloc, number_of(count)?)?)?;
    put_steps(alloc, &mut moving, steps, out)?;
    put_ended(alloc, moving, out)
}

fn begun(alloc: Global, giver: MailBox) -> Result<Moving, Memory> {
    let sweep = Sweep::start(alloc, &giver)?;
    let acl = Bytes::from_slice(alloc, giver.acl())?;
    let intake = Intake::start(alloc, giver.serial(), acl);
    Ok(Moving {
        giver,
        sweep,
        intake,
    })
}

impl Steps for Moving {
    fn take_step(&mut self, alloc: Global, step: &str, out: &mut Bytes) -> Result<(), Fault> {
        match step {
            "left" => Ok(self.put_left(alloc, out)?),
            "send" => Ok(self.send(alloc, out)?),
            "count" => Ok(self.count(alloc, out)?),
            change => {
                let words = parts_of(alloc, change, " ")?;
                self.change(change_of(alloc, words.as_slice())?)
            }
        }
    }
}

impl Moving {
    /// The giver notes the message that changes, and changes it.
    fn change(&mut self, change: Change) -> Result<(), Fault>
        requires { LeavesNext change }
    {
        if let Some(uid) = uid_of(&change) {
            self.sweep.note(uid)?;
        }
        Ok(self.giver.apply(change)?)
    }

    /// Prints how many changes are left, and whether they fit one batch.
    fn put_left(&self, alloc: Global, out: &mut Bytes) -> Result<(), Memory> {
        let batches = if self.sweep.fits(&self.giver) {
            "one batch"
        } else {
            "more"
        };
        let left = self.sweep.left();
        out.extend_from_slice(format!(in alloc; "{left} left, {batches}")?.as_bytes())
    }

    /// Sends a batch, and prints its changes.
    fn send(&mut self, alloc: Global, out: &mut Bytes) -> Result<(), Memory> {
        let batch = self.sweep.next_batch(alloc, &self.giver)?;
        put_changes(alloc, batch.as_slice(), out)?;
        self.intake.take(alloc, batch)
    }

    /// Sends a batch, and prints how many changes of each kind it has.
    fn count(&mut self, alloc: Global, out: &mut Bytes) -> Result<(), Memory> {
        let batch = self.sweep.next_batch(alloc, &self.giver)?;
        put_kinds(alloc, kinds_of(batch.as_slice()), out)?;
        self.intake.take(alloc, batch)
    }
}

fn put_changes(alloc: Global, changes: &[Change], out: &mut Bytes) -> Result<(), Memory> {
    for (place, change) in changes.iter().enumerate() {
        if place > 0 {
            out.extend_from_slice(b", ")?;
        }
        put_change(alloc, change, out)?;
    }
    Ok(())
}

fn put_change(alloc: Global, change: &Change, out: &mut Bytes) -> Result<(), Memory> {
    match change {
        Change::Put(message) => {
            out.extend_from_slice(b"put")?;
            put_row(alloc, message.uid, &message.flags, out)
        }
        Change::SetFlags(uid, flags) => {
            out.extend_from_slice(b"flags")?;
            put_row(alloc, *uid, flags, out)
        }
        Change::Gone(uid) => out.extend_from_slice(format!(in alloc; "gone {uid}")?.as_bytes()),
        Change::NextUid(uid) => out.extend_from_slice(format!(in alloc; "next {uid}")?.as_bytes()),
    }
}

fn kinds_of(changes: &[Change]) -> Kinds {
    let mut kinds = Kinds {
        put: 0,
        flagged: 0,
        gone: 0,
    };
    for change in changes {
        match change {
            Change::Put(_) => kinds.put = kinds.put.wrapping_add(1),
            Change::SetFlags(_, _) => kinds.flagged = kinds.flagged.wrapping_add(1),
            Change::Gone(_) => kinds.gone = kinds.gone.wrapping_add(1),
            Change::NextUid(_) => {}
        }
    }
    kinds
}

fn put_kinds(alloc: Global, kinds: Kinds, out: &mut Bytes) -> Result<(), Memory> {
    let Kinds { put, flagged, gone } = kinds;
    out.extend_from_slice(format!(in alloc; "{put} put, {flagged} flags, {gone} gone")?.as_bytes())
}

/// Ends the move with the giver's UIDNEXT, and prints whether the taker's mailbox is the giver's, its UIDVALIDITY, its UIDNEXT, and how many
/// messages it has.
fn put_ended(alloc: Global, moving: Moving, out: &mut Bytes) -> Result<(), Fault> {
    let Moving {
        giver,
        sweep: _,
        intake,
    } = moving;
    let taken = intake.finish(giver.next())?;
    put_field(
        if is_same(alloc, &taken, &giver)? {
            b"alike"
        } else {
            b"other"
        },
        out,
    )?;
    let (serial, next, count) = (taken.serial(), taken.next(), taken.len());
    Ok(out.extend_from_slice(format!(in alloc; " {serial} {next} {count}")?.as_bytes())?)
}

fn is_same(alloc: Global, taken: &MailBox, giver: &MailBox) -> Result<bool, Memory> {
    for row in giver.look(alloc)?.rows.as_slice() {
        if !is_same_message(taken.find(row.uid), giver.find(row.uid)) {
            return Ok(false);
        }
    }
    Ok(
        taken.serial() == giver.serial()
            && taken.next() == giver.next()
            && taken.acl() == giver.acl()
            && taken.len() == giver.len(),
    )
}

fn is_same_message(taken: Option<&Message>, giver: Option<&Message>) -> bool {
    match (taken, giver) {
        (Some(taken), Some(giver)) => taken.flags.is_same(&giver.flags)
            && taken.date.as_bytes() == giver.date.as_bytes()
            && taken.body.as_slice() == giver.body.as_slice(),
        (None, None) => true,
        _ => false,
    }
}
