// A command that needs the home of its mailbox begins to wait.
ghost use Rattle.std.specs.Prelude.{◌≡◌, ◌+◌, ◌<◌, ◌^◌, IfOk, OnOk};
ghost use Rattle.asking_core.specs.Begins.{first_sent};
ghost use Rattle.session_core.specs.Begin.{HasBegun};
ghost use Rattle.mur_base.specs.declared.point.What.TheVariants.{Unreached};
ghost use Rattle.session_core.specs.Relocated.{relocated};
ghost use Rattle.front_core.specs.Taken.{asks, begins_if, behind_outs, next_of, refuses_now, to_begin, waits_with, ways_by};
ghost use Rattle.front_core.specs.Ups.{is_up};

use crate::connection::{Connection, Stage};
use crate::desk::Desk;
use crate::parked::Parked;
use ask_routes::Why;
use asking_core::{At, Sent, Waiting};
use link_msg::{How, Out, Outs};
use mur_base::{MailName, Memory, NodeName};
use mur_model::Tag;
use session_core::Asking;
use std::alloc::Global;

impl Connection {
    /// A command that needs the home of a mailbox, under the number that it will have, and what goes out for it first.
    pub(crate) fn begun(
        &self,
        desk: Desk,
        name: MailName,
        asking: Asking,
    ) -> Result<(Waiting, Sent), Memory>
        requires room { self.now.answered + 1 < 2 ^ 64 }
        requires begun { HasBegun self.now.session }
        ensures { IfOk result (λ it. record { waiting = it.0; sent = it.1 } ≡ first_sent desk.entry.replica.now.records desk.entry.master.now
            desk.entry.first.now (next_of desk.entry.conn self.now) self.now.session (to_begin name asking)) }
    {
        let mut it = Waiting {
            at: At::Barrier(Why::Missing),
            name,
            asking,
        };
        let sent = it.begin(desk.routes(self.answered), &self.session)?;
        Ok((it, sent))
    }

    /// Asks the server of a mailbox, or the master first; where the link to that isn't up, the command is refused. For want of memory the
    /// connection is spent.
    pub(crate) fn asks(
        &mut self,
        desk: Desk,
        tag: Tag,
        name: MailName,
        asking: Asking,
        outs: &mut Outs,
    ) -> Result<(), Memory>
        requires room { self.old.answered + 1 < 2 ^ 64 }
        requires begun { HasBegun self.old.session }
        ensures { OnOk result (record { connection = self.new; outs = outs.new }
            ≡ behind_outs outs.old (asks (ways_by desk.entry.replica.now.records desk.entry.master.now desk.entry.first.now desk.entry.ups.now)
            desk.entry.conn self.old tag name asking)) }
    {
        let (it, sent) = self.begun(desk, name, asking)?;
        self.begins_if(desk, tag, it, sent, outs)
    }

    fn begins_if(
        &mut self,
        desk: Desk,
        tag: Tag,
        it: Waiting,
        sent: Sent,
        outs: &mut Outs,
    ) -> Result<(), Memory>
        requires room { self.old.answered + 1 < 2 ^ 64 }
        ensures { OnOk result (record { connection = self.new; outs = outs.new }
            ≡ behind_outs outs.old (begins_if (is_up desk.entry.ups.now sent.to) desk.entry.conn self.old tag (record { waiting = it; sent = sent }))) }
    {
        if desk.reaches(&sent.to) {
            self.waits_with(desk.alloc, tag, it, sent, outs)
        } else {
            self.refuses_now(desk, &tag, &it, receiver(sent), outs)
        }
    }

    // The message goes out, and the command waits.
    fn waits_with(
        &mut self,
        alloc: Global,
        tag: Tag,
        it: Waiting,
        sent: Sent,
        outs: &mut Outs,
    ) -> Result<(), Memory>
        ensures { OnOk result (record { connection = self.new; outs = outs.new } ≡ behind_outs outs.old (waits_with self.old tag it sent)) }
    {
        let parked = Parked::new(alloc, it)?;
        self.stage = Stage::Waits(tag, parked);
        outs.push(Out::Link(sent.to, sent.message))
    }

    // The command is refused, since this node isn't reached.
    #[tactic(auto, unfolding(crate::specs::Taken::told_now))]
    fn refuses_now(
        &mut self,
        desk: Desk,
        tag: &Tag,
        it: &Waiting,
        node: NodeName,
        outs: &mut Outs,
    ) -> Result<(), Memory>
        requires room { self.old.answered + 1 < 2 ^ 64 }
        ensures { OnOk result (record { connection = self.new; outs = outs.new }
            ≡ behind_outs outs.old (refuses_now desk.entry.conn self.old tag.now (relocated self.old.session it.now.asking.awaited (Unreached node)) node)) }
    {
        let reply = it.unreached(desk.alloc, &mut self.session, &node)?;
        self.told_now(desk, tag, How::Unreached(node), reply, outs)
    }
}

/// The node to which a message would go that isn't sent.
fn receiver(sent: Sent) -> NodeName
    ensures { result ≡ sent.to }
{
    sent.to
}
