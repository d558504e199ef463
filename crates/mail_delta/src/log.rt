// The log of a mailbox's changes, from which its home tells what changed since a mark.
ghost use Rattle.std.specs.Prelude.{◌≡◌, ℕ, List, Option, Some, [], false, is_some, IfOk, OnOk, OnErr};
ghost use Rattle.std.specs.List.{position_from, remove};
ghost use Rattle.std.specs.Option.{IfSome, option_map};
ghost use Rattle.std.specs.Ordering.{nat_cmp};
ghost use Rattle.mur_base.specs.Map.{IsInOrder};
ghost use Rattle.mail_message.specs.declared.message.Row.{Row};
ghost use Rattle.mail_message.specs.declared.message.Snapshot.{Snapshot};
ghost use Rattle.mail_message.specs.Boxes.{size_of, snapshot_of, IsRising};
ghost use Rattle.mail_message.specs.RowOrder.{AreRising};
ghost use Rattle.mail_delta.specs.Deltas.{delta_of, applied};
ghost use Rattle.mail_delta.specs.Notes.{row_before, delta_by};
ghost use Rattle.mail_delta.specs.Spans.{was_at, is_kept, Remembers, noted, next_mark, marked, forgotten, marks_of};
ghost use Rattle.mail_delta.specs.Handing.{begins_at, handed_at, taken_out};

use crate::delta::Delta;
use crate::mark::Mark;
use crate::notes::{Notes, changed_in, gone_in, note, put_earlier, put_later};
use crate::span::Span;
use mail_message::MailBox;
use mur_base::{Map, Memory};
use std::alloc::Global;
use std::collections::VecDeque;
use std::marker::Model;

/// The log of a mailbox's changes. Its home marks moments, notes each UID before the message there comes, changes or goes, and is told
/// what changed since a mark. Between two marks the log keeps one row for each message that changed.
#[derive(Drop)]
pub struct ChangeLog {
    given: u64,
    /// The newest mark is in front.
    spans: VecDeque<Span>,
}

impl Model for ChangeLog {
    ghost use Rattle.mail_delta.specs.Spans.{LogState, AreGiven};

    ghost Value = { LogState };

    ghost view = { λ log. record { given = log.given; spans = log.spans.items } };

    ghost invariant = { λ log. AreGiven log.given log.spans.items };
}

impl ChangeLog {
    /// A log without marks, which notes nothing. It takes no memory.
    pub fn new(alloc: Global) -> ChangeLog
        ensures { result ≡ record { given = 0; spans = [] } }
    {
        ChangeLog {
            given: 0,
            spans: VecDeque::new(alloc),
        }
    }

    /// Notes that the message with this UID is about to come, to change or to go. The home notes each UID before it changes anything
    /// there, and marks no moment in between. A note that no change follows does no harm. For want of memory the log stays as it was.
    /// Logarithmic in the mailbox and in what changed since the newest mark.
    pub fn note(&mut self, alloc: Global, content: &MailBox, uid: u32) -> Result<(), Memory>
        ensures ok { OnOk result (self.new ≡ noted self.old content.now uid) }
        ensures err { OnErr result (self.new ≡ self.old) }
    {
        match self.spans.front_mut() {
            Some(span) => note(alloc, &mut span.before, content, uid),
            None => Ok(()),
        }
    }

    /// Marks this moment. `None` exactly if all 18,446,744,073,709,551,615 marks of the log were given. For want of memory the log
    /// stays as it was.
    pub fn mark(&mut self, alloc: Global) -> Result<Option<Mark>, Memory>
        ensures value { IfOk result (λ mark. mark ≡ next_mark self.old) }
        ensures fresh { IfOk result (λ mark. IfSome mark (λ given. is_kept given.0 self.old.spans ≡ false)) }
        ensures ok { OnOk result (self.new ≡ marked self.old) }
        ensures err { OnErr result (self.new ≡ self.old) }
    {
        let Some(number) = self.given.checked_add(1) else {
            return Ok(None);
        };
        self.spans.push_front(Span {
            mark: number,
            before: Map::new(alloc),
        })?;
        self.given = number;
        Ok(Some(Mark(number)))
    }

    /// What changed since a mark, where `content` is the mailbox now and `size` the bytes of its bodies together, at most the greatest
    /// `u64`. `None` exactly if the mark isn't kept. If the mailbox had these rows at the mark, the changes are those since a
    /// snapshot with the rows.
    ///
    /// It looks at each message that was noted since the mark, once for each kept mark in between, in time logarithmic in the mailbox
    /// and in the notes. A message that is as it was, or came and went, isn't told.
    pub fn since(
        &self,
        alloc: Global,
        mark: Mark,
        content: &MailBox,
        size: u64,
    ) -> Result<Option<Delta>, Memory>
        requires { size ≡ size_of content.now.messages }
        ensures kept { IfOk result (λ delta. is_some delta ≡ is_kept mark.0 self.now.spans) }
        ensures delta { (rows : List Row) → AreRising rows → IsRising content.now.messages → Remembers self.now mark content.now rows
            → IfOk result (λ delta. delta ≡ Some (delta_of rows content.now)) }
        ensures complete { (old : Snapshot) → AreRising old.rows → IsRising content.now.messages
            → Remembers self.now mark content.now old.rows
            → IfOk result (λ delta. IfSome delta (λ told. applied old told ≡ snapshot_of content.now)) }
    {
        let since = self.notes_since(alloc, mark)?;
        match since {
            Some(notes) => {
                let delta = told(alloc, &notes, content, size)?;
                Ok(Some(delta))
            }
            None => Ok(None),
        }
    }

    /// Forgets a mark, and what only that mark needed; a mark that isn't kept changes nothing. For want of memory the log is spent.
    /// The notes since the mark are moved to the mark before, if there is one, each in logarithmic time; then the marks kept after it
    /// are moved.
    pub fn forget(&mut self, alloc: Global, mark: Mark) -> Result<(), Memory>
        ensures { OnOk result (self.new ≡ forgotten self.old mark) }
    {
        match place_of(&self.spans, mark.0) {
            Some(place) => take_out(alloc, &mut self.spans, place),
            None => Ok(()),
        }
    }

    /// The notes since a mark, the first of each UID, if the mark is kept.
    fn notes_since(&self, alloc: Global, mark: Mark) -> Result<Option<Notes>, Memory>
        ensures { IfOk result (λ notes. (uid : ℕ) (now : Option Row)
            → option_map (λ found. row_before found uid now) notes ≡ was_at mark.0 self.now.spans uid now) }
    {
        let mut notes = Notes::new(alloc);
        for place in 0..self.spans.len() {
            if let Some(span) = self.spans.get(place) {
                put_earlier(alloc, &mut notes, &span.before)?;
                if span.mark == mark.0 {
                    return Ok(Some(notes));
                }
            }
        }
        Ok(None)
    }
}

/// The changes that the notes since a mark and the mailbox now tell.
fn told(alloc: Global, notes: &Notes, content: &MailBox, size: u64) -> Result<Delta, Memory>
    ensures value { IfOk result (λ delta. delta ≡ delta_by notes.now content.now size) }
    ensures ordered { IsInOrder nat_cmp notes.now }
{
    let changed = changed_in(alloc, notes, content)?;
    let gone = gone_in(alloc, notes, content)?;
    Ok(Delta {
        serial: content.serial(),
        next: content.next(),
        size,
        changed,
        gone,
    })
}

/// The place of the span that begins at a mark.
fn place_of(spans: &VecDeque<Span>, mark: u64) -> Option<usize>
    ensures { result ≡ position_from (begins_at mark) 0 spans.now.items }
{
    for place in 0..spans.len() {
        if let Some(span) = spans.get(place) {
            if span.mark == mark {
                return Some(place);
            }
        }
    }
    None
}

/// Takes out the span at a place, if there is one; its notes go over to the next one.
fn take_out(alloc: Global, spans: &mut VecDeque<Span>, place: usize) -> Result<(), Memory>
    ensures spans { OnOk result (spans.new.items ≡ taken_out spans.old.items place) }
    ensures marks { marks_of spans.new.items ≡ marks_of (remove spans.old.items place) }
{
    match spans.remove(place) {
        Some(span) => hand_on(alloc, spans, place, &span.before),
        None => Ok(()),
    }
}

/// Puts notes beside those of the span at a place, if there is one; for want of memory some of them.
fn hand_on(
    alloc: Global,
    spans: &mut VecDeque<Span>,
    place: usize,
    notes: &Notes,
) -> Result<(), Memory>
    ensures spans { OnOk result (spans.new.items ≡ handed_at notes.now spans.old.items place) }
    ensures marks { marks_of spans.new.items ≡ marks_of spans.old.items }
{
    match spans.get_mut(place) {
        Some(span) => put_later(alloc, &mut span.before, notes),
        None => Ok(()),
    }
}
