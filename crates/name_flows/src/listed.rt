// LIST's OK: a resync ends.
ghost use Rattle.std.specs.Prelude.{◌≡◌, ◌∷◌, [], None, Some, filter, map, IfOk, OnOk};
ghost use Rattle.std.specs.List.{fold};
ghost use Rattle.name_flows.specs.AnswerOrder.{in_command_order};
ghost use Rattle.name_flows.specs.Listed.{name_in, is_unmade, is_lost, find_line, with_find, line_in, forget_all, round, ended_resync, list_ok};
ghost use Rattle.name_flows.specs.Steps.{given};

use crate::ask::{Answers, NameAsk};
use crate::flows::{Flows, answer_to};
use crate::gives::Gives;
use crate::resync::{Listed, Resync};
use crate::sent::{Sent, SentLine, SentLines};
use mupdate_codec::{FIND_TAG, Tag};
use mur_base::{Bytes, Copied, MailName, Map, Memory, Phase, Queue};
use node_record::{BackendRecord, Held, HeldNames, MailNames};
use std::alloc::Global;
use std::mem;

/// Lines by the name that they are about.
pub type LinesByName = Map<MailName, SentLine>;

/// The line that looks for a name.
fn find_line(alloc: Global, name: MailName) -> Result<SentLine, Memory>
    ensures { IfOk result (λ line. line ≡ find_line name) }
{
    Ok(SentLine {
        tag: Tag::Text(Bytes::from_slice(alloc, FIND_TAG)?),
        what: Sent::Find(name),
    })
}

/// Whether a mailbox was made here, and its name wasn't listed.
fn is_unmade(listed: &Listed, name: &MailName, it: &Held) -> bool
    ensures { result ≡ is_unmade listed.now (name.now, it.now) }
{
    matches!(it.phase, Phase::Creating) && !listed.contains_key(name)
}

/// Whether a mailbox is closed here, and its name wasn't listed.
fn is_lost(listed: &Listed, name: &MailName, it: &Held) -> bool
    ensures { result ≡ is_lost listed.now (name.now, it.now) }
{
    matches!(it.phase, Phase::Closing) && !listed.contains_key(name)
}

/// The names of mailboxes that were made here and weren't listed.
fn unmade_names(alloc: Global, held: &HeldNames, listed: &Listed) -> Result<MailNames, Memory>
    ensures { IfOk result (λ names. names ≡ map name_in (filter (is_unmade listed.now) held.now)) }
{
    let mut names = MailNames::new(alloc);
    for (name, it) in held.iter() {
        if is_unmade(listed, name, it) {
            names.push(name.copy(alloc)?)?;
        }
    }
    Ok(names)
}

/// The lines that look for mailboxes that are closed here and weren't listed.
fn find_lines(alloc: Global, held: &HeldNames, listed: &Listed) -> Result<LinesByName, Memory>
    ensures { IfOk result (λ lines. lines ≡ fold with_find [] (filter (is_lost listed.now) held.now)) }
{
    let mut lines = LinesByName::new(alloc);
    for (name, it) in held.iter() {
        if is_lost(listed, name, it) {
            let line = find_line(alloc, name.copy(alloc)?)?;
            lines.insert(name.copy(alloc)?, line)?;
        }
    }
    Ok(lines)
}

/// The lines in the order of their names.
fn in_order(alloc: Global, lines: &LinesByName) -> Result<SentLines, Memory>
    ensures { IfOk result (λ all. all ≡ map line_in lines.now) }
{
    let mut all = SentLines::new(alloc);
    for (_name, line) in lines.iter() {
        all.push(line.copy(alloc)?)?;
    }
    Ok(all)
}

/// The entry by which these names are here no more, if there are any.
fn forget_all(names: MailNames) -> Option<BackendRecord>
    ensures { result ≡ forget_all names }
{
    if names.is_empty() {
        None
    } else {
        Some(BackendRecord::Forget(names))
    }
}

/// Answers by connection, and by number of the command there.
fn in_command_order(answers: Answers) -> Result<Answers, Memory>
    ensures { IfOk result (λ all. all ≡ in_command_order answers) }
{
    let mut all = answers.into_vec();
    all.sort_by_key(|told| (told.answer.id.conn, told.answer.id.command))?;
    Ok(Answers::from_vec(all))
}

/// What the end of a resync gives.
fn resync_gives(
    alloc: Global,
    held: &HeldNames,
    listed: &Listed,
    lines: &LinesByName,
    answers: Answers,
) -> Result<Gives, Memory>
    ensures { IfOk result (λ it. it ≡ record {
      entry = forget_all (map name_in (filter (is_unmade listed.now) held.now));
      sends = map line_in lines.now;
      answers = in_command_order answers;
    }) }
{
    let sends = in_order(alloc, lines)?;
    let names = unmade_names(alloc, held, listed)?;
    Ok(Gives {
        entry: forget_all(names),
        sends,
        answers: in_command_order(answers)?,
    })
}

impl Flows {
    /// Tests an ask that waited.
    fn test_one(
        &mut self,
        alloc: Global,
        held: &HeldNames,
        ask: NameAsk,
        lines: &mut LinesByName,
        answers: &mut Answers,
    ) -> Result<(), Memory>
        ensures { OnOk result (record { flows = self.new; lines = lines.new; answers = answers.new }
            ≡ round held.now (record { flows = self.old; lines = lines.old; answers = answers.old }) ask) }
    {
        match self.refusal(alloc, held, &ask)? {
            Some(body) => answers.push(answer_to(ask.front, ask.id, body)),
            None => {
                let name = ask.name.copy(alloc)?;
                let line = self.begin(alloc, ask)?;
                lines.insert(name, line)?;
                Ok(())
            }
        }
    }

    /// Tests those that waited, one after the other.
    fn test_all(
        &mut self,
        alloc: Global,
        held: &HeldNames,
        waiting: Queue<NameAsk>,
        lines: &mut LinesByName,
        answers: &mut Answers,
    ) -> Result<(), Memory>
        ensures { OnOk result (record { flows = self.new; lines = lines.new; answers = answers.new }
            ≡ fold (round held.now) (record { flows = self.old; lines = lines.old; answers = answers.old }) waiting) }
    {
        let mut waiting = waiting;
        while let Some(ask) = waiting.pop() {
            self.test_one(alloc, held, ask, lines, answers)?;
        }
        Ok(())
    }

    /// Ends a resync.
    fn end_resync(&mut self, alloc: Global, held: &HeldNames, it: Resync) -> Result<Gives, Memory>
        ensures { IfOk result (λ gives. given self.new gives ≡ ended_resync self.old held.now it) }
    {
        let Resync { listed, waiting } = it;
        let mut lines = find_lines(alloc, held, &listed)?;
        let mut answers = Answers::new(alloc);
        self.test_all(alloc, held, waiting, &mut lines, &mut answers)?;
        resync_gives(alloc, held, &listed, &lines, answers)
    }

    /// LIST's OK.
    pub fn list_ok(&mut self, alloc: Global, held: &HeldNames) -> Result<Gives, Memory>
        ensures { IfOk result (λ gives. given self.new gives ≡ list_ok self.old held.now) }
    {
        match mem::replace(&mut self.resync, None) {
            Some(it) => self.end_resync(alloc, held, it),
            None => Ok(Gives::nothing(alloc)),
        }
    }
}
