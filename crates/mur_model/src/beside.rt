// A view beside the rows of its mailbox: the news by one walk, and without a copy of a row.
ghost use Rattle.std.specs.Prelude.{◌≡◌, ◌+◌, ◌<◌, ◌^◌, ◌++◌, Some, None, ◌≤◌, ◌∷◌, List, drop, length, if◌then◌else◌, IfOk, OnOk};
ghost use Rattle.std.specs.Option.{IfSome};
ghost use Rattle.mail_message.specs.declared.message.Row.{Row as row_type};
ghost use Rattle.mur_model.specs.Beside.{from_place, one_gone, one_kept, same_until, told_walked, walked};
ghost use Rattle.mur_model.specs.News.{changed_line, is_among};

use crate::news::{Told, is_among, number_of, put_changed_line, put_exists};
use crate::selected::put_all;
use imap_types::{ReplyLine, ReplyLines};
use mail_message::{OrderedRows, Row};
use mur_base::Memory;
use std::alloc::Global;
use std::collections::BTreeSet;

/// What a walk has found so far.
#[derive(Drop)]
pub struct Walked {
    /// A line for each message that is gone.
    pub gone: ReplyLines,
    /// A line for each message that is there with other flags than were told.
    pub changed: ReplyLines,
    /// How many messages of the view are there.
    pub kept: usize,
}

/// How many rows of a view the mailbox has first, with the flags that were told.
pub fn same_until(rows: &[Row], now: &[Row]) -> usize
    ensures is { result ≡ same_until rows.now now.now }
    ensures within { result ≤ length rows.now }
{
    for (at, row) in rows.iter().enumerate() {
        let Some(it) = now.get(at) else {
            return at;
        };
        if it.uid != row.uid || !row.flags.is_same(&it.flags) {
            return at;
        }
    }
    rows.len()
}

/// The news of so many messages that are all there with the flags that were told.
pub fn told_unchanged(alloc: Global, count: usize, now: OrderedRows) -> Result<Told, Memory>
    requires { count < 2 ^ 32 }
    ensures { IfOk result (λ it. it ≡ told_walked (from_place count) now) }
{
    let mut lines = ReplyLines::new(alloc);
    put_exists(&mut lines, count, now.len().saturating_sub(count))?;
    Ok(Told { lines, rows: now })
}

/// The news of a walk.
pub fn told_walked(walked: Walked, now: OrderedRows) -> Result<Told, Memory>
    requires { walked.kept < 2 ^ 32 }
    ensures { IfOk result (λ it. it ≡ told_walked walked now) }
{
    let Walked {
        gone,
        changed,
        kept,
    } = walked;
    let mut lines = gone;
    put_exists(&mut lines, kept, now.len().saturating_sub(kept))?;
    put_all(&mut lines, changed)?;
    Ok(Told { lines, rows: now })
}

/// Walks on from a place, up to which all rows are the same. None where a message is gone that may not be told yet, or the mailbox has one
/// between those of the view.
pub fn walk(
    alloc: Global,
    rows: &[Row],
    now: &[Row],
    expunges: bool,
    told: &BTreeSet<u32>,
    place: usize,
) -> Result<Option<Walked>, Memory>
    requires within { place ≤ length rows.now }
    requires numbers { length rows.now < 2 ^ 32 }
    ensures walked { IfOk result (λ found. found ≡ walked expunges told.now.keys (from_place place) (drop place rows.now) (drop place now.now)) }
    ensures numbers { IfOk result (λ found. IfSome found (λ it. it.kept < 2 ^ 32)) }
{
    let mut walked = Walked {
        gone: ReplyLines::new(alloc),
        changed: ReplyLines::new(alloc),
        kept: place,
    };
    for row in &rows[place..] {
        if !walked.takes(alloc, row, now, expunges, told)? {
            return Ok(None);
        }
    }
    Ok(Some(walked))
}

impl Walked {
    /// Walks on by a row of the view, if that can be.
    fn takes(
        &mut self,
        alloc: Global,
        row: &Row,
        now: &[Row],
        expunges: bool,
        told: &BTreeSet<u32>,
    ) -> Result<bool, Memory>
        requires { self.old.kept + 1 < 2 ^ 32 }
        ensures kept { OnOk result (self.new.kept ≤ self.old.kept + 1) }
        ensures walked { IfOk result (λ goes. (rows : List row_type) → walked expunges told.now.keys self.old (row.now ∷ rows) (drop self.old.kept now.now)
            ≡ (if goes then walked expunges told.now.keys self.new rows (drop self.new.kept now.now) else None)) }
    {
        let Some(it) = now.get(self.kept) else {
            return self.loses(expunges);
        };
        if it.uid == row.uid {
            self.keeps(alloc, row, it, told)?;
            return Ok(true);
        }
        self.loses(expunges && row.uid < it.uid)
    }

    /// By a message that is gone, if that may be told.
    fn loses(&mut self, may: bool) -> Result<bool, Memory>
        requires { self.old.kept + 1 < 2 ^ 32 }
        ensures may { IfOk result (λ goes. goes ≡ may) }
        ensures walked { OnOk result (self.new ≡ (if may then one_gone self.old else self.old)) }
    {
        if may {
            self.gone
                .push(ReplyLine::Expunge(number_of(self.kept + 1)))?;
        }
        Ok(may)
    }

    /// By a message that is there.
    fn keeps(
        &mut self,
        alloc: Global,
        row: &Row,
        it: &Row,
        told: &BTreeSet<u32>,
    ) -> Result<(), Memory>
        requires { self.old.kept + 1 < 2 ^ 32 }
        ensures { OnOk result (self.new ≡ one_kept told.now.keys row.now it.now self.old) }
    {
        self.kept += 1;
        put_kept_line(alloc, &mut self.changed, self.kept, row, it, told)
    }
}

/// Puts a line for a message that has other flags than were told.
#[tactic(auto, using(crate::proofs::BesideLaw::unchanged))]
fn put_kept_line(
    alloc: Global,
    lines: &mut ReplyLines,
    number: usize,
    row: &Row,
    it: &Row,
    told: &BTreeSet<u32>,
) -> Result<(), Memory>
    requires { number < 2 ^ 32 }
    ensures { OnOk result (lines.new ≡ lines.old ++ changed_line (is_among told.now.keys row.now.uid) number row.now (Some it.now)) }
{
    if row.flags.is_same(&it.flags) {
        return Ok(());
    }
    let is_told = is_among(told, row.uid);
    put_changed_line(alloc, lines, number_of(number), row, Some(it), is_told)
}
