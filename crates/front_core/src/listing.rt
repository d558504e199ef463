// A LIST waits for the master's OK, and is answered from the replica (RFC 9051, 6.3.9).
ghost use Rattle.std.specs.Prelude.{◌≡◌, ◌+◌, ◌<◌, ◌^◌, IfOk, OnOk};
ghost use Rattle.feed_core.specs.Listing.{mailbox_names};
ghost use Rattle.mur_model.specs.Listing.{gathered_of};
ghost use Rattle.front_core.specs.Answered.{listed_by};
ghost use Rattle.front_core.specs.Behind.{list_refused_at};
ghost use Rattle.front_core.specs.Room.{commands_of};
ghost use Rattle.front_core.specs.Taken.{behind_outs, lists, ways_by};

use crate::connection::{Connection, Stage};
use crate::desk::Desk;
use crate::replies::reply_bytes;
use ask_routes::noop_line;
use feed_core::Replica;
use link_msg::{How, LinkMsg, Out, Outs};
use mur_base::{AskId, Copied, Memory};
use mur_model::{Gathered, Listing, NoText, Tag, refused};
use std::alloc::Global;

impl Connection {
    /// Sends the master a NOOP, under the number that the command will have; where the link to it isn't up, the LIST is refused. For want of memory the connection is spent.
    pub(crate) fn lists(
        &mut self,
        desk: Desk,
        tag: Tag,
        it: Listing,
        outs: &mut Outs,
    ) -> Result<(), Memory>
        requires room { self.old.answered + 1 < 2 ^ 64 }
        ensures { OnOk result (record { connection = self.new; outs = outs.new }
            ≡ behind_outs outs.old (lists (ways_by desk.entry.replica.now.records desk.entry.master.now desk.entry.first.now desk.entry.ups.now)
            desk.entry.conn self.old tag it)) }
    {
        let master = desk.master.copy(desk.alloc)?;
        if desk.reaches(desk.master) {
            let id = AskId {
                conn: desk.conn,
                command: self.answered + 1,
            };
            let line = noop_line(desk.alloc, &id)?;
            self.stage = Stage::Lists(tag, it);
            outs.push(Out::Link(master, LinkMsg::Line(line)))
        } else {
            let reply = refused(desk.alloc, NoText::NotReached);
            self.told_now(desk, &tag, How::Unreached(master), reply, outs)
        }
    }

    /// Refuses a LIST that waits, since the master isn't reached. For want of memory the connection is spent.
    pub(crate) fn list_refused(&mut self, desk: Desk) -> Result<Outs, Memory>
        requires room { commands_of self.old < 2 ^ 64 }
        ensures { IfOk result (λ outs. record { connection = self.new; outs = outs }
            ≡ list_refused_at desk.entry.setting.now (ways_by desk.entry.replica.now.records desk.entry.master.now desk.entry.first.now desk.entry.ups.now)
            desk.entry.conn self.old self.old.stage) }
    {
        let Stage::Lists(tag, _) = &self.stage else {
            return Ok(Outs::new(desk.alloc));
        };
        let text = reply_bytes(desk.alloc, tag, refused(desk.alloc, NoText::NotReached))?;
        let how = How::Unreached(desk.master.copy(desk.alloc)?);
        self.reads_on(desk, how, text)
    }

    /// Answers a LIST that waited: all that the master told before its OK was taken. Its time grows as the number of mailboxes. For want of memory
    /// the connection is spent.
    #[tactic(auto, unfolding(crate::specs::Answered::listed_by))]
    pub(crate) fn listed(&mut self, desk: Desk) -> Result<Outs, Memory>
        requires room { commands_of self.old < 2 ^ 64 }
        ensures { IfOk result (λ outs. record { connection = self.new; outs = outs }
            ≡ listed_by desk.entry.setting.now (ways_by desk.entry.replica.now.records desk.entry.master.now desk.entry.first.now desk.entry.ups.now)
            desk.entry.conn self.old self.old.stage) }
    {
        let Stage::Lists(tag, it) = &self.stage else {
            return Ok(Outs::new(desk.alloc));
        };
        let gathered = gathered_in(desk.alloc, it, desk.replica)?;
        let reply = it.reply(desk.alloc, &gathered)?;
        let text = reply_bytes(desk.alloc, tag, reply)?;
        self.reads_on(desk, How::Behind, text)
    }
}

/// What a LIST tells of the mailboxes of a replica.
#[tactic(auto, unfolding(mur_model::specs::Listing::gathered_of))]
pub(crate) fn gathered_in<'a>(
    alloc: Global,
    it: &Listing,
    replica: &'a Replica,
) -> Result<Gathered<'a>, Memory>
    ensures { IfOk result (λ gathered. gathered ≡ gathered_of it.now (mailbox_names replica.now.records)) }
{
    let mut gathered = Gathered::new(alloc);
    for (name, rec) in replica.records.iter() {
        if rec.is_mailbox() {
            gathered.put(alloc, it, name)?;
        }
    }
    Ok(gathered)
}
