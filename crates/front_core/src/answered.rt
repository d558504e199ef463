// What comes of an answer for the command that waits for it, of the master's OK, and of the end of the link to the node for which it waits.
ghost use Rattle.std.specs.Prelude.{◌≡◌, ◌+◌, ◌<◌, ◌^◌, length, [], ◌∷◌, IfOk, OnOk};
ghost use Rattle.link_msg.specs.declared.out.Out.TheVariants.{Link};
ghost use Rattle.imap_types.specs.declared.reply.Bye.TheVariants.{Lost};
ghost use Rattle.session_core.specs.Begin.{MayNeed};
ghost use Rattle.front_core.specs.Answered.{answer_comes, end_comes, ends_with, how_for, need_at, ok_comes, reading_again, reads_on, told_so};
ghost use Rattle.front_core.specs.Behind.{does, refused_at, sent_at, unreached_at, ThenFits};
ghost use Rattle.front_core.specs.Begun.{IsBegun};
ghost use Rattle.front_core.specs.Room.{commands_of};
ghost use Rattle.front_core.specs.Taken.{says_bye, ways_by};

use crate::connection::{Connection, Stage};
use crate::desk::Desk;
use crate::replies::{given, reply_bytes};
use asking_core::{Sent, Then};
use link_msg::{BackAnswer, How, Out, Outs};
use mur_base::{AskId, Bytes, Copied, Memory, NodeName, What};
use mur_model::{Bye, Reply};
use session_core::Need;
use std::alloc::Global;
use std::mem;

impl Connection {
    /// Takes an answer, where it is one to the command that waits. For want of memory the connection is spent.
    #[tactic(auto, unfolding(crate::specs::Answered::answer_comes, crate::specs::Answered::answer_by))]
    pub(crate) fn answer_comes(&mut self, desk: Desk, answer: BackAnswer) -> Result<Outs, Memory>
        requires room { commands_of self.old < 2 ^ 64 }
        requires begun { IsBegun self.old }
        ensures { IfOk result (λ outs. record { connection = self.new; outs = outs }
            ≡ answer_comes desk.entry.setting.now (ways_by desk.entry.replica.now.records desk.entry.master.now desk.entry.first.now desk.entry.ups.now)
            desk.entry.conn self.old answer) }
    {
        match &mut self.stage {
            Stage::Waits(_, it) if answer.id.command == self.answered + 1 => {
                let routes = desk.routes(self.answered);
                let then = it.answered(routes, &mut self.session, answer.body)?;
                self.does(desk, then)
            }
            _ => Ok(Outs::new(desk.alloc)),
        }
    }

    /// Takes the master's OK to the NOOP of a command, where that command waits for it. For want of memory the connection is spent.
    #[tactic(auto, unfolding(crate::specs::Answered::ok_comes, crate::specs::Answered::ok_by))]
    pub(crate) fn ok_comes(&mut self, desk: Desk, id: AskId) -> Result<Outs, Memory>
        requires room { commands_of self.old < 2 ^ 64 }
        requires begun { IsBegun self.old }
        ensures { IfOk result (λ outs. record { connection = self.new; outs = outs }
            ≡ ok_comes desk.entry.setting.now (ways_by desk.entry.replica.now.records desk.entry.master.now desk.entry.first.now desk.entry.ups.now)
            desk.entry.conn self.old id) }
    {
        match &mut self.stage {
            Stage::Waits(_, it) if id.command == self.answered + 1 => {
                let Some(why) = it.barrier() else {
                    return Ok(Outs::new(desk.alloc));
                };
                let routes = desk.routes(self.answered);
                let then = it.cleared(routes, &mut self.session, why)?;
                self.does(desk, then)
            }
            Stage::Lists(_, _) if id.command == self.answered + 1 => self.listed(desk),
            _ => Ok(Outs::new(desk.alloc)),
        }
    }

    /// The link ends to the node for which the command waits: a server that it asked may have carried it out, and the master's OK won't come.
    /// For want of memory the connection is spent.
    #[tactic(auto, unfolding(crate::specs::Answered::end_by))]
    pub(crate) fn end_comes(&mut self, desk: Desk) -> Result<Outs, Memory>
        requires room { commands_of self.old < 2 ^ 64 }
        ensures { IfOk result (λ outs. record { connection = self.new; outs = outs }
            ≡ end_comes desk.entry.setting.now (ways_by desk.entry.replica.now.records desk.entry.master.now desk.entry.first.now desk.entry.ups.now)
            desk.entry.conn self.old) }
    {
        match &self.stage {
            Stage::Waits(_, it) if it.barrier().is_none() => self.lost(desk),
            Stage::Waits(_, _) => self.unreached(desk, desk.master),
            Stage::Lists(_, _) => self.list_refused(desk),
            Stage::Reading | Stage::Ended => Ok(Outs::new(desk.alloc)),
        }
    }

    /// Does what came of it for the command that waits.
    #[tactic(auto, unfolding(crate::specs::Behind::does, crate::specs::Behind::ThenFits))]
    fn does(&mut self, desk: Desk, then: Then) -> Result<Outs, Memory>
        requires room { commands_of self.old < 2 ^ 64 }
        requires fits { ThenFits self.old.session then }
        ensures { IfOk result (λ outs. record { connection = self.new; outs = outs }
            ≡ does desk.entry.setting.now (ways_by desk.entry.replica.now.records desk.entry.master.now desk.entry.first.now desk.entry.ups.now)
            desk.entry.conn self.old then) }
    {
        match then {
            Then::Sends(sent) => self.sends(desk, sent),
            Then::Needs(need) => self.need_behind(desk, How::Behind, need),
            Then::Refused(cause, reply) => self.refused(desk, how_for(cause), reply),
            Then::Lost => self.lost(desk),
            Then::Stays => Ok(Outs::new(desk.alloc)),
        }
    }

    /// Whether the command that waits was carried out can't be known: its connection ends.
    fn lost(&mut self, desk: Desk) -> Result<Outs, Memory>
        ensures { IfOk result (λ outs. record { connection = self.new; outs = outs } ≡ says_bye desk.entry.conn self.old Lost) }
    {
        let mut outs = Outs::new(desk.alloc);
        self.says_bye(desk, Bye::Lost, &mut outs)?;
        Ok(outs)
    }

    /// The command that waits sends a message; where the link to its node isn't up, it is refused. For want of memory the connection is spent.
    fn sends(&mut self, desk: Desk, sent: Sent) -> Result<Outs, Memory>
        requires room { commands_of self.old < 2 ^ 64 }
        ensures { IfOk result (λ outs. record { connection = self.new; outs = outs }
            ≡ sent_at desk.entry.setting.now (ways_by desk.entry.replica.now.records desk.entry.master.now desk.entry.first.now desk.entry.ups.now)
            desk.entry.conn self.old sent self.old.stage) }
    {
        if !desk.reaches(&sent.to) {
            return self.unreached(desk, &sent.to);
        }
        match &self.stage {
            Stage::Waits(_, _) => sent_out(desk.alloc, sent),
            Stage::Reading | Stage::Lists(_, _) | Stage::Ended => Ok(Outs::new(desk.alloc)),
        }
    }

    /// Refuses the command that waits, since this node isn't reached. For want of memory the connection is spent.
    fn unreached(&mut self, desk: Desk, node: &NodeName) -> Result<Outs, Memory>
        requires room { commands_of self.old < 2 ^ 64 }
        ensures { IfOk result (λ outs. record { connection = self.new; outs = outs }
            ≡ unreached_at desk.entry.setting.now (ways_by desk.entry.replica.now.records desk.entry.master.now desk.entry.first.now desk.entry.ups.now)
            desk.entry.conn self.old node.now self.old.stage) }
    {
        let Stage::Waits(tag, it) = &self.stage else {
            return Ok(Outs::new(desk.alloc));
        };
        let reply = it.unreached(desk.alloc, &mut self.session, node)?;
        let text = reply_bytes(desk.alloc, tag, reply)?;
        let how = How::Unreached(node.copy(desk.alloc)?);
        self.reads_on(desk, how, text)
    }

    /// The client of the command that waits is told that it is refused.
    fn refused(&mut self, desk: Desk, how: How, reply: Reply) -> Result<Outs, Memory>
        requires room { commands_of self.old < 2 ^ 64 }
        ensures { IfOk result (λ outs. record { connection = self.new; outs = outs }
            ≡ refused_at desk.entry.setting.now (ways_by desk.entry.replica.now.records desk.entry.master.now desk.entry.first.now desk.entry.ups.now)
            desk.entry.conn self.old how reply self.old.stage) }
    {
        let Stage::Waits(tag, _) = &self.stage else {
            return Ok(Outs::new(desk.alloc));
        };
        let text = reply_bytes(desk.alloc, tag, reply)?;
        self.reads_on(desk, how, text)
    }

    /// Does what the session needs behind the command that waited.
    #[tactic(auto, unfolding(session_core::specs::Begin::MayNeed))]
    fn need_behind(&mut self, desk: Desk, how: How, need: Need) -> Result<Outs, Memory>
        requires room { commands_of self.old < 2 ^ 64 }
        requires fits { MayNeed self.old.session need }
        ensures { IfOk result (λ outs. record { connection = self.new; outs = outs }
            ≡ need_at desk.entry.setting.now (ways_by desk.entry.replica.now.records desk.entry.master.now desk.entry.first.now desk.entry.ups.now)
            desk.entry.conn self.old how need self.old.stage) }
    {
        let Stage::Waits(tag, _) = &self.stage else {
            return Ok(Outs::new(desk.alloc));
        };
        match need {
            Need::Reply(reply) => {
                let text = reply_bytes(desk.alloc, tag, reply)?;
                self.reads_on(desk, how, text)
            }
            Need::Leave(reply) => {
                let text = reply_bytes(desk.alloc, tag, reply)?;
                self.ends_with(desk, how, text)
            }
            Need::Home(name, asking) => {
                let stage = mem::replace(&mut self.stage, Stage::Reading);
                let Stage::Waits(tag, _) = stage else {
                    unreachable!();
                };
                let mut outs = Outs::new(desk.alloc);
                self.asks(desk, tag, name, asking, &mut outs)?;
                self.waiting_come(desk, &mut outs)?;
                Ok(outs)
            }
            Need::Names(it) => {
                let stage = mem::replace(&mut self.stage, Stage::Reading);
                let Stage::Waits(tag, _) = stage else {
                    unreachable!();
                };
                let mut outs = Outs::new(desk.alloc);
                self.lists(desk, tag, it, &mut outs)?;
                self.waiting_come(desk, &mut outs)?;
                Ok(outs)
            }
        }
    }

    /// Gives the client the reply of the command that waited.
    fn told_so(&mut self, desk: Desk, how: How, reply: Bytes) -> Result<Outs, Memory>
        requires room { self.old.answered + 1 < 2 ^ 64 }
        ensures connection { OnOk result (self.new ≡ record self.old { answered = self.old.answered + 1 }) }
        ensures outs { IfOk result (λ outs. outs ≡ told_so desk.entry.conn self.old how reply) }
    {
        self.answered += 1;
        let id = AskId {
            conn: desk.conn,
            command: self.answered,
        };
        let mut outs = given(desk.alloc, desk.conn, reply)?;
        outs.push(Out::Told(id, how))?;
        Ok(outs)
    }

    /// Gives the client the last reply of its connection.
    fn ends_with(&mut self, desk: Desk, how: How, reply: Bytes) -> Result<Outs, Memory>
        requires room { self.old.answered + 1 < 2 ^ 64 }
        ensures { IfOk result (λ outs. record { connection = self.new; outs = outs } ≡ ends_with desk.entry.conn self.old how reply) }
    {
        self.stage = Stage::Ended;
        let mut outs = self.told_so(desk, how, reply)?;
        outs.push(Out::Close(desk.conn))?;
        Ok(outs)
    }

    /// The client is given its reply, and the inputs that waited come.
    #[tactic(auto, using(std::proofs::lemmas::Grind::common_steps))]
    pub(crate) fn reads_on(&mut self, desk: Desk, how: How, reply: Bytes) -> Result<Outs, Memory>
        requires room { commands_of (reading_again self.old) + length self.old.waiting < 2 ^ 64 }
        ensures { IfOk result (λ outs. record { connection = self.new; outs = outs }
            ≡ reads_on desk.entry.setting.now (ways_by desk.entry.replica.now.records desk.entry.master.now desk.entry.first.now desk.entry.ups.now)
            desk.entry.conn self.old how reply) }
    {
        self.stage = Stage::Reading;
        let mut outs = self.told_so(desk, how, reply)?;
        self.waiting_come(desk, &mut outs)?;
        Ok(outs)
    }
}

// How the client of a command is told of it that is refused for this cause.
fn how_for(cause: What) -> How
    ensures { result ≡ how_for cause }
{
    match cause {
        What::Unreached(node) => How::Unreached(node),
        What::Reply | What::Read | What::Lost | What::Reserved => How::Reserved,
    }
}

fn sent_out(alloc: Global, sent: Sent) -> Result<Outs, Memory>
    ensures { IfOk result (λ outs. outs ≡ Link sent.to sent.message ∷ []) }
{
    let mut outs = Outs::new(alloc);
    outs.push(Out::Link(sent.to, sent.message))?;
    Ok(outs)
}
