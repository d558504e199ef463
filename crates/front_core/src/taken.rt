// What an input makes of a connection, and what is let out. One command at a time: inputs that come behind a command which
// waits, for a server or for the master, wait with it (RFC 9051, 5.5).
ghost use Rattle.std.specs.Prelude.{◌≡◌, ◌+◌, ◌<◌, ◌^◌, OnOk};
ghost use Rattle.session_core.specs.Begin.{MayNeed};
ghost use Rattle.front_core.specs.Taken.{input_comes, input_in, request_in, turned_by_need, told_now, answers_last, behind_outs, says_bye, ways_by};

use crate::connection::{Connection, Stage};
use crate::desk::Desk;
use crate::replies::{bye_line, bye_of, goes_on, reply_bytes, reply_of};
use imap_talk::Input;
use link_msg::{How, Out, Outs};
use mur_base::{AskId, Memory};
use mur_model::{BadText, Bye, NoText, Reply, Request, Tag, Verdict, refused};
use session_core::Need;

impl Connection {
    /// Takes an input of a client, and puts what is let out behind the outputs. For want of memory the connection is spent.
    #[tactic(auto, unfolding(crate::specs::Taken::input_comes, crate::specs::Taken::comes_at))]
    pub(crate) fn input_comes(
        &mut self,
        desk: Desk,
        input: Input,
        outs: &mut Outs,
    ) -> Result<(), Memory>
        requires room { self.old.answered + 1 < 2 ^ 64 }
        ensures { OnOk result (record { connection = self.new; outs = outs.new }
            ≡ behind_outs outs.old (input_comes desk.entry.setting.now (ways_by desk.entry.replica.now.records desk.entry.master.now desk.entry.first.now desk.entry.ups.now)
            desk.entry.conn self.old input)) }
    {
        match self.stage {
            Stage::Reading => self.input_in(desk, input, outs),
            Stage::Waits(_, _) | Stage::Lists(_, _) => self.waiting.push(input),
            Stage::Ended => Ok(()),
        }
    }

    /// Takes an input of a connection that is reading.
    #[tactic(auto, unfolding(crate::specs::Taken::input_in))]
    pub(crate) fn input_in(
        &mut self,
        desk: Desk,
        input: Input,
        outs: &mut Outs,
    ) -> Result<(), Memory>
        requires room { self.old.answered + 1 < 2 ^ 64 }
        ensures { OnOk result (record { connection = self.new; outs = outs.new }
            ≡ behind_outs outs.old (input_in desk.entry.setting.now (ways_by desk.entry.replica.now.records desk.entry.master.now desk.entry.first.now desk.entry.ups.now)
            desk.entry.conn self.old input)) }
    {
        match input {
            Input::Asks(request) => self.request_in(desk, request, outs),
            Input::GoesOn(why) => goes_on(desk.alloc, desk.conn, why, outs),
            Input::Faults(fault) => self.says_bye(desk, bye_of(fault), outs),
        }
    }

    /// The connection ends, and its client is told why.
    #[tactic(auto, using(std::proofs::lemmas::Grind::common_steps))]
    pub(crate) fn says_bye(&mut self, desk: Desk, bye: Bye, outs: &mut Outs) -> Result<(), Memory>
        ensures { OnOk result (record { connection = self.new; outs = outs.new } ≡ behind_outs outs.old (says_bye desk.entry.conn self.old bye)) }
    {
        self.stage = Stage::Ended;
        outs.push(Out::Client(desk.conn, bye_line(desk.alloc, bye)?))?;
        outs.push(Out::Close(desk.conn))
    }

    #[tactic(auto, unfolding(crate::specs::Taken::request_in))]
    fn request_in(&mut self, desk: Desk, request: Request, outs: &mut Outs) -> Result<(), Memory>
        requires room { self.old.answered + 1 < 2 ^ 64 }
        ensures { OnOk result (record { connection = self.new; outs = outs.new }
            ≡ behind_outs outs.old (request_in desk.entry.setting.now (ways_by desk.entry.replica.now.records desk.entry.master.now desk.entry.first.now desk.entry.ups.now)
            desk.entry.conn self.old request)) }
    {
        match request {
            Request::Command(tag, command) => {
                let need = self.session.begin(desk.alloc, desk.setting, command)?;
                self.need_in(desk, tag, need, outs)
            }
            Request::Unknown(tag) => {
                let reply = reply_of(desk.alloc, Verdict::Bad(BadText::Syntax));
                self.told_now(desk, &tag, How::Here, reply, outs)
            }
            Request::TooBig(tag) => {
                let reply = refused(desk.alloc, NoText::Limit);
                self.told_now(desk, &tag, How::Here, reply, outs)
            }
        }
    }

    /// Does what the session needs behind a command.
    #[tactic(auto, unfolding(crate::specs::Taken::turned_by_need, session_core::specs::Begin::MayNeed))]
    fn need_in(&mut self, desk: Desk, tag: Tag, need: Need, outs: &mut Outs) -> Result<(), Memory>
        requires room { self.old.answered + 1 < 2 ^ 64 }
        requires fits { MayNeed self.old.session need }
        ensures { OnOk result (record { connection = self.new; outs = outs.new }
            ≡ behind_outs outs.old (turned_by_need (ways_by desk.entry.replica.now.records desk.entry.master.now desk.entry.first.now desk.entry.ups.now)
            desk.entry.conn self.old tag need)) }
    {
        match need {
            Need::Reply(reply) => self.told_now(desk, &tag, How::Here, reply, outs),
            Need::Leave(reply) => self.answers_last(desk, &tag, reply, outs),
            Need::Home(name, asking) => self.asks(desk, tag, name, asking, outs),
            Need::Names(it) => self.lists(desk, tag, it, outs),
        }
    }

    /// The last answer of a connection.
    #[tactic(auto, using(std::proofs::lemmas::Grind::common_steps), unfolding(crate::specs::Taken::answers_last, crate::specs::Taken::told_now))]
    fn answers_last(
        &mut self,
        desk: Desk,
        tag: &Tag,
        reply: Reply,
        outs: &mut Outs,
    ) -> Result<(), Memory>
        requires room { self.old.answered + 1 < 2 ^ 64 }
        ensures { OnOk result (record { connection = self.new; outs = outs.new }
            ≡ behind_outs outs.old (answers_last desk.entry.conn self.old tag.now reply)) }
    {
        self.stage = Stage::Ended;
        self.told_now(desk, tag, How::Here, reply, outs)?;
        outs.push(Out::Close(desk.conn))
    }

    /// A command whose client is told of it, of which this step is the point.
    #[tactic(auto, using(std::proofs::lemmas::Grind::common_steps), unfolding(crate::specs::Taken::told_now))]
    pub(crate) fn told_now(
        &mut self,
        desk: Desk,
        tag: &Tag,
        how: How,
        reply: Reply,
        outs: &mut Outs,
    ) -> Result<(), Memory>
        requires room { self.old.answered + 1 < 2 ^ 64 }
        ensures { OnOk result (record { connection = self.new; outs = outs.new }
            ≡ behind_outs outs.old (told_now how desk.entry.conn self.old self.old.session tag.now reply)) }
    {
        self.answered += 1;
        let id = AskId {
            conn: desk.conn,
            command: self.answered,
        };
        outs.push(Out::Client(desk.conn, reply_bytes(desk.alloc, tag, reply)?))?;
        outs.push(Out::Told(id, how))
    }
}
