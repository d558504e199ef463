// One step of the master: it takes a line.
ghost use Rattle.std.specs.Prelude.{◌≡◌, ◌++◌, ◌&&◌, not, map, Option, IfOk, OnOk};
ghost use Rattle.node_record.specs.declared.master.MasterRecord.{MasterRecord};
ghost use Rattle.master_core.specs.Changes.{change_outs};
ghost use Rattle.master_core.specs.Replies.{reply_to};
ghost use Rattle.master_core.specs.Streams.{is_stream, may_follow_update};
ghost use Rattle.master_core.specs.Step.{answered, mark_outs, table_with, reply_outs, replied, settled, bad_step, command_step, line_step, after};

use crate::activate::activate;
use crate::changes::tell_change;
use crate::deactivate::deactivate;
use crate::delete::delete;
use crate::find::find;
use crate::line::tag_before;
use crate::list::list;
use crate::master::Master;
use crate::reply::Reply;
use crate::reserve::reserve;
use crate::sender::Sender;
use crate::streams::{StreamStep, may_follow_update, put_close, stream_step};
use crate::update::update;
use link_msg::{Counts, Out, Outs};
use mupdate_codec::{MCommand, MResponse, Tag, ask_of, command_in, print_response};
use mur_base::{Copied, Memory};
use node_record::{MasterRecord, Table, apply_master};
use std::alloc::Global;

/// The reply to a command, by the table and by who sends it.
#[tactic(auto, unfolding(crate::specs::Replies::reply_to))]
fn reply_to(alloc: Global, table: &Table, from: &Sender, command: MCommand) -> Result<Reply, Memory>
    ensures { IfOk result (λ reply. reply ≡ reply_to table.now from.now command) }
{
    match command {
        MCommand::Reserve(name, place) => reserve(alloc, table, from, name, place),
        MCommand::Activate(name, place, acl) => activate(alloc, table, from, name, place, acl),
        MCommand::Deactivate(name, place) => deactivate(alloc, table, from, name, place),
        MCommand::Delete(name) => delete(alloc, table, from, name),
        MCommand::Find(name) => find(alloc, table, &name),
        MCommand::List(prefix) => list(alloc, table, &prefix),
        MCommand::Update => update(alloc, table),
        MCommand::Noop => Reply::noop(alloc),
        MCommand::Logout => Reply::logout(alloc),
    }
}

/// Answers the sender under its tag.
fn put_answers(
    alloc: Global,
    from: &Sender,
    tag: &Tag,
    answers: &[MResponse],
    outs: &mut Outs,
) -> Result<(), Memory>
    ensures { OnOk result (outs.new ≡ outs.old ++ map (answered from.now tag.now) answers.now) }
{
    for answer in answers {
        let text = print_response(alloc, tag, answer)?;
        outs.push(from.line(alloc, text)?)?;
    }
    Ok(())
}

/// A step counts for the client's command that the tag of a node's line tells.
fn put_mark(from: &Sender, tag: &Tag, counts: Option<Counts>, outs: &mut Outs) -> Result<(), Memory>
    ensures { OnOk result (outs.new ≡ outs.old ++ mark_outs from.now tag.now counts) }
{
    if let Sender::Outside(_) = from {
        return Ok(());
    }
    match (ask_of(tag), counts) {
        (Some(ask), Some(counts)) => outs.push(Out::Mark(ask, counts)),
        _ => Ok(()),
    }
}

/// Puts an entry, if there is one, into the table.
fn put_entry(alloc: Global, table: &mut Table, entry: &Option<MasterRecord>) -> Result<(), Memory>
    ensures { OnOk result (table.new ≡ table_with table.old entry.now) }
{
    match entry {
        Some(entry) => apply_master(table, entry.copy(alloc)?),
        None => Ok(()),
    }
}

impl Master {
    /// Puts out the answers of a reply, its change at each stream, and its mark.
    #[tactic(auto, using(std::proofs::lemmas::Grind::common_steps))]
    fn put_reply(
        &self,
        alloc: Global,
        from: &Sender,
        tag: &Tag,
        reply: &Reply,
        outs: &mut Outs,
    ) -> Result<(), Memory>
        ensures { OnOk result (outs.new ≡ outs.old ++ reply_outs self.now from.now tag.now reply.now) }
    {
        put_answers(alloc, from, tag, reply.answers.as_slice(), outs)?;
        tell_change(alloc, &self.streams, &self.watchers, &reply.entry, outs)?;
        put_mark(from, tag, reply.counts, outs)
    }

    /// Gives a reply, and makes its change.
    #[tactic(auto, unfolding(crate::specs::Step::replied))]
    fn give(
        &mut self,
        alloc: Global,
        from: &Sender,
        tag: &Tag,
        reply: Reply,
        outs: &mut Outs,
    ) -> Result<Option<MasterRecord>, Memory>
        ensures { IfOk result (λ entry. record { master = self.new; entry = entry; outs = outs.new }
            ≡ after outs.old (replied self.old from.now tag.now reply)) }
    {
        self.put_reply(alloc, from, tag, &reply, outs)?;
        put_entry(alloc, &mut self.table, &reply.entry)?;
        Ok(reply.entry)
    }

    /// Makes of the sender what its command makes of it.
    #[tactic(auto, unfolding(crate::specs::Step::settled))]
    fn settle_sender(
        &mut self,
        alloc: Global,
        from: &Sender,
        tag: Tag,
        step: StreamStep,
        outs: &mut Outs,
    ) -> Result<(), Memory>
        ensures { OnOk result ((entry : Option MasterRecord) → record { master = self.new; entry = entry; outs = outs.new }
            ≡ settled (record { master = self.old; entry = entry; outs = outs.old }) from.now tag step) }
    {
        match step {
            StreamStep::Stays => Ok(()),
            StreamStep::Begins => self.begin_stream(alloc, from, tag),
            StreamStep::Ends => {
                self.ended(from);
                put_close(from, outs)
            }
        }
    }

    #[tactic(auto, unfolding(crate::specs::Step::bad_step))]
    fn refuse(
        &mut self,
        alloc: Global,
        from: &Sender,
        tag: &Tag,
        outs: &mut Outs,
    ) -> Result<Option<MasterRecord>, Memory>
        ensures { IfOk result (λ entry. record { master = self.new; entry = entry; outs = outs.new }
            ≡ after outs.old (bad_step self.old from.now tag.now)) }
    {
        let reply = Reply::bad(alloc)?;
        self.give(alloc, from, tag, reply, outs)
    }

    /// Whether a command may not come from a sender, which has sent UPDATE.
    fn is_barred(&self, from: &Sender, command: &MCommand) -> bool
        ensures { result ≡ (is_stream self.now from.now && not (may_follow_update command.now)) }
    {
        self.is_stream(from) && !may_follow_update(command)
    }

    #[tactic(auto, unfolding(crate::specs::Step::command_step, crate::specs::Step::settled))]
    fn command_comes(
        &mut self,
        alloc: Global,
        from: &Sender,
        tag: Tag,
        command: MCommand,
        outs: &mut Outs,
    ) -> Result<Option<MasterRecord>, Memory>
        ensures { IfOk result (λ entry. record { master = self.new; entry = entry; outs = outs.new }
            ≡ after outs.old (command_step self.old from.now tag command)) }
    {
        if self.is_barred(from, &command) {
            // By a call, so that the drop is proved once, and not here.
            drop(command);
            return self.refuse(alloc, from, &tag, outs);
        }
        let step = stream_step(&command);
        let reply = reply_to(alloc, &self.table, from, command)?;
        let entry = self.give(alloc, from, &tag, reply, outs)?;
        self.settle_sender(alloc, from, tag, step, outs)?;
        Ok(entry)
    }

    /// Takes a line: puts its outputs after others, and gives its entry.
    #[tactic(auto, unfolding(crate::specs::Step::line_step, crate::specs::Step::line_by))]
    pub fn line_comes(
        &mut self,
        alloc: Global,
        from: &Sender,
        line: &[u8],
        outs: &mut Outs,
    ) -> Result<Option<MasterRecord>, Memory>
        ensures { IfOk result (λ entry. record { master = self.new; entry = entry; outs = outs.new }
            ≡ after outs.old (line_step self.old from.now line.now)) }
    {
        match command_in(alloc, line)? {
            Some((tag, command)) => self.command_comes(alloc, from, tag, command, outs),
            None => {
                let tag = tag_before(alloc, line)?;
                self.refuse(alloc, from, &tag, outs)
            }
        }
    }
}
