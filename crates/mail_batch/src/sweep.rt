// The changes of a mailbox that its giver has still to send.
ghost use Rattle.std.specs.Prelude.{◌≡◌, length, IfOk, OnOk, OnErr};
ghost use Rattle.std.specs.List.{AllByRecursion, fold};
ghost use Rattle.std.specs.Ordering.{nat_cmp};
ghost use Rattle.mur_base.specs.Map.{with_entry, with_value, without_key};
ghost use Rattle.mail_message.specs.Boxes.{IsRising, LeavesNext};
ghost use Rattle.mail_batch.specs.Weights.{weight_of};
ghost use Rattle.mail_batch.specs.Sweeps.{is_sent, with_place, noted, noted_row, all_left, change_at, batch_of, fits_one_batch};
ghost use Rattle.mail_batch.specs.Sweeps.{settled, after_sending, after_sending_all, IsSameSweep};

use crate::weight::{takes_change, weight_with};
use mail_message::{Change, Changes, MailBox, Row};
use mur_base::limits::{BATCH_WEIGHT_LIMIT, CHANGE_WEIGHT};
use mur_base::{Copied, Map, Memory};
use std::alloc::Global;
use std::marker::Model;

/// The changes of a mailbox that its giver has still to send. The giver keeps the mailbox and hands it to each call. Contracts
/// see a sweep as the UIDs that are left, and which messages the taker has once all that was sent has come.
#[derive(Drop)]
pub struct Sweep {
    left: Map<u32, ()>,
    known: Map<u32, bool>,
}

impl Model for Sweep {
    ghost use Rattle.mail_batch.specs.Sweeps.{SweepState};

    ghost Value = { SweepState };

    ghost view = { λ sweep. record { left = sweep.left; known = sweep.known } };
}

impl Sweep {
    /// Begins with all messages of a mailbox left. It reads the flags of each message once, and no body.
    pub fn start(alloc: Global, content: &MailBox) -> Result<Sweep, Memory>
        ensures left { IfOk result (λ sweep. sweep ≡ all_left content.now.messages) }
        ensures rising { OnOk result (IsRising content.now.messages) }
    {
        let seen = content.look(alloc)?;
        let mut sweep = Sweep {
            left: Map::new(alloc),
            known: Map::new(alloc),
        };
        sweep.note_all(seen.rows.as_slice())?;
        Ok(sweep)
    }

    /// Notes that the message with this UID is about to come, to change or to go. The giver notes each UID before it changes
    /// anything there, and sends no batch in between. A note that no change follows does no harm. For want of memory the same
    /// changes are left as before. Logarithmic in the UIDs that the mailbox has had.
    pub fn note(&mut self, uid: u32) -> Result<(), Memory>
        ensures ok { OnOk result (self.new ≡ noted self.old uid) }
        ensures err { OnErr result (IsSameSweep self.old self.new) }
    {
        make_place(&mut self.known, uid)?;
        insert(&mut self.left, uid)
    }

    /// Takes the next batch out of the changes left: the first of them in rising order of UID, at most 64 changes with at
    /// most 1,114,112 of weight, where each change weighs 2,048 and the bytes of its body. The first change always goes, so
    /// the batch is empty only if no change is left. Each change takes time logarithmic in the mailbox. A body that goes is
    /// copied once, since the giver's mailbox keeps it. For want of memory the sweep stays as it was.
    pub fn next_batch(&mut self, alloc: Global, content: &MailBox) -> Result<Changes, Memory>
        ensures batch { IfOk result (λ changes. changes ≡ batch_of self.old content.now.messages) }
        ensures leaves { IfOk result (λ changes. AllByRecursion LeavesNext changes) }
        ensures after { OnOk result (self.new ≡ after_sending_all self.old (batch_of self.old content.now.messages)) }
        ensures err { OnErr result (self.new ≡ self.old) }
    {
        let changes = self.batch(alloc, content)?;
        self.settle_all(changes.as_slice());
        Ok(changes)
    }

    /// The number of changes left. It takes no memory, in constant time.
    pub fn left(&self) -> usize
        ensures { result ≡ length self.now.left }
    {
        self.left.len()
    }

    /// Whether one batch takes all changes left. It takes no memory, and looks at 65 changes at most.
    pub fn fits(&self, content: &MailBox) -> bool
        ensures { result ≡ fits_one_batch self.now content.now.messages }
    {
        let mut count = 0;
        let mut room = BATCH_WEIGHT_LIMIT;
        for (uid, _mark) in self.left.iter() {
            let weight = self.weight(content, *uid);
            if !takes_change(count, room, weight) {
                return false;
            }
            count += 1;
            room = room.saturating_sub(weight);
        }
        true
    }

    fn note_all(&mut self, rows: &[Row]) -> Result<(), Memory>
        ensures { OnOk result (self.new ≡ fold noted_row self.old rows.now) }
    {
        for row in rows {
            self.note(row.uid)?;
        }
        Ok(())
    }

    fn batch(&self, alloc: Global, content: &MailBox) -> Result<Changes, Memory>
        ensures batch { IfOk result (λ changes. changes ≡ batch_of self.now content.now.messages) }
        ensures leaves { IfOk result (λ changes. AllByRecursion LeavesNext changes) }
    {
        let mut changes = Changes::new(alloc);
        let mut room = BATCH_WEIGHT_LIMIT;
        for (uid, _mark) in self.left.iter() {
            let weight = self.weight(content, *uid);
            if !takes_change(changes.len(), room, weight) {
                return Ok(changes);
            }
            changes.push(self.change(alloc, content, *uid)?)?;
            room = room.saturating_sub(weight);
        }
        Ok(changes)
    }

    /// Whether the taker has a message with this UID once all that was sent has come.
    fn has_sent(&self, uid: u32) -> bool
        ensures { result ≡ is_sent self.now uid }
    {
        match self.known.get(&uid) {
            Some(sent) => *sent,
            None => false,
        }
    }

    fn change(&self, alloc: Global, content: &MailBox, uid: u32) -> Result<Change, Memory>
        ensures change { IfOk result (λ change. change ≡ change_at self.now content.now.messages uid) }
        ensures leaves { IfOk result LeavesNext }
    {
        match content.find(uid) {
            None => Ok(Change::Gone(uid)),
            Some(message) => {
                if self.has_sent(uid) {
                    Ok(Change::SetFlags(uid, message.flags.copy(alloc)?))
                } else {
                    Ok(Change::Put(message.copy(alloc)?))
                }
            }
        }
    }

    /// The weight of a UID's change.
    fn weight(&self, content: &MailBox, uid: u32) -> usize
        ensures { result ≡ weight_of (change_at self.now content.now.messages uid) }
    {
        match content.find(uid) {
            None => CHANGE_WEIGHT,
            Some(message) => {
                if self.has_sent(uid) {
                    CHANGE_WEIGHT
                } else {
                    weight_with(message.body.len())
                }
            }
        }
    }

    fn settle_all(&mut self, changes: &[Change])
        ensures { self.new ≡ after_sending_all self.old changes.now }
    {
        for change in changes {
            self.settle_change(change);
        }
    }

    fn settle_change(&mut self, change: &Change)
        ensures { self.new ≡ after_sending self.old change.now }
    {
        match change {
            Change::Put(message) => self.settle(message.uid, true),
            Change::SetFlags(uid, _) => self.settle(*uid, true),
            Change::Gone(uid) => self.settle(*uid, false),
            Change::NextUid(_) => {}
        }
    }

    fn settle(&mut self, uid: u32, sent: bool)
        ensures { self.new ≡ settled self.old uid sent }
    {
        remove(&mut self.left, uid);
        write(&mut self.known, uid, sent);
    }
}

/// Makes a place for the mark of a UID, if there is none. So `write` needs no memory later.
fn make_place(known: &mut Map<u32, bool>, uid: u32) -> Result<(), Memory>
    ensures ok { OnOk result (known.new ≡ with_place known.old uid) }
    ensures err { OnErr result (known.new ≡ known.old) }
{
    if known.contains_key(&uid) {
        return Ok(());
    }
    let _ = known.insert(uid, false)?;
    Ok(())
}

fn insert(left: &mut Map<u32, ()>, uid: u32) -> Result<(), Memory>
    ensures ok { OnOk result (left.new ≡ with_entry nat_cmp left.old uid tt) }
    ensures err { OnErr result (left.new ≡ left.old) }
{
    let _ = left.insert(uid, ())?;
    Ok(())
}

fn remove(left: &mut Map<u32, ()>, uid: u32)
    ensures { left.new ≡ without_key nat_cmp left.old uid }
{
    let _ = left.remove(&uid);
}

/// Writes the mark of a UID into its place, if there is one.
fn write(known: &mut Map<u32, bool>, uid: u32, sent: bool)
    ensures { known.new ≡ with_value nat_cmp known.old uid sent }
{
    match known.get_mut(&uid) {
        Some(place) => *place = sent,
        None => {}
    }
}
