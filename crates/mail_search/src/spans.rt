// Sets in order, for look-ups of many numbers.
ghost use Rattle.std.specs.Prelude.{◌≡◌, ◌≤◌, ◌<◌, length, map, IfOk, IsTrue};
ghost use Rattle.std.specs.List.{AllWithin};
ghost use Rattle.mail_message.specs.Sets.{set_holds};
ghost use Rattle.mail_search.specs.Spans.{spans_of, reaching, is_reached, AreRisingSpans, IsSpanPlace, AreSpansOf};

use mail_message::SetPart;
use mur_base::Memory;
use std::alloc::Global;

/// Numbers from a first one on.
#[derive(Clone, Copy)]
pub struct Span {
    pub first: u32,
    /// The first number behind them.
    pub end: u64,
}

/// For each number whether it is in a set. The set is brought into order once; then a number costs a step or two where it isn't
/// far behind the number before it, and a binary search of the set elsewhere.
pub fn marks_of_set(alloc: Global, set: &[SetPart], numbers: &[u32]) -> Result<Vec<bool>, Memory>
    ensures { IfOk result (λ marks. marks.items ≡ map (set_holds set.now) numbers.now) }
{
    let spans = in_order(alloc, set)?;
    let mut marks = Vec::with_capacity(alloc, numbers.len())?;
    let mut near = 0;
    for number in numbers {
        near = place_of(&spans, *number, near);
        marks.push(is_reached(&spans, near, *number))?;
    }
    Ok(marks)
}

/// The spans of a set by their first numbers, each reaching as far as any before it.
fn in_order(alloc: Global, set: &[SetPart]) -> Result<Vec<Span>, Memory>
    ensures { IfOk result (λ spans. AreSpansOf set.now spans.items) }
{
    let mut spans = spans_of(alloc, set)?;
    spans.sort_unstable_by_key(|span| span.first);
    Ok(reaching(alloc, &spans)?)
}

fn spans_of(alloc: Global, set: &[SetPart]) -> Result<Vec<Span>, Memory>
    ensures { IfOk result (λ spans. spans.items ≡ spans_of set.now) }
{
    let mut spans = Vec::with_capacity(alloc, set.len())?;
    for part in set {
        if let Some((least, greatest)) = part.bounds() {
            spans.push(Span {
                first: least,
                end: u64::from(greatest) + 1,
            })?;
        }
    }
    Ok(spans)
}

fn reaching(alloc: Global, spans: &[Span]) -> Result<Vec<Span>, Memory>
    ensures { IfOk result (λ made. made.items ≡ reaching 0 spans.now) }
{
    let mut made = Vec::with_capacity(alloc, spans.len())?;
    let mut end = 0;
    for span in spans {
        end = span.end.max(end);
        made.push(Span {
            first: span.first,
            end,
        })?;
    }
    Ok(made)
}

/// How many spans begin at a number or before it: looked for near a place, and then among all.
fn place_of(spans: &[Span], number: u32, near: usize) -> usize
    requires { AreRisingSpans spans.now }
    ensures within { result ≤ length spans.now }
    ensures place { IsSpanPlace spans.now number result }
{
    if is_place(spans, number, near) {
        return near;
    }
    let next = near.saturating_add(1);
    if is_place(spans, number, next) {
        return next;
    }
    spans.partition_point(|span| span.first <= number)
}

fn is_place(spans: &[Span], number: u32, place: usize) -> bool
    requires { AreRisingSpans spans.now }
    ensures within { IsTrue result → place ≤ length spans.now }
    ensures place { IsTrue result → IsSpanPlace spans.now number place }
{
    begin_until(spans, number, place) && begin_behind(spans, number, place)
}

/// Whether all of so many spans begin at a number or before it.
fn begin_until(spans: &[Span], number: u32, place: usize) -> bool
    requires { AreRisingSpans spans.now }
    ensures { IsTrue result → AllWithin (λ span. span.first ≤ number) spans.now 0 place }
{
    if place == 0 {
        return true;
    }
    match spans.get(place - 1) {
        Some(span) => span.first <= number,
        None => false,
    }
}

/// Whether all spans but so many begin behind a number.
fn begin_behind(spans: &[Span], number: u32, place: usize) -> bool
    requires { AreRisingSpans spans.now }
    ensures within { IsTrue result → place ≤ length spans.now }
    ensures behind { IsTrue result → AllWithin (λ span. number < span.first) spans.now place (length spans.now) }
{
    match spans.get(place) {
        Some(span) => number < span.first,
        None => place == spans.len(),
    }
}

fn is_reached(spans: &[Span], place: usize, number: u32) -> bool
    ensures { result ≡ is_reached spans.now place number }
{
    if place == 0 {
        return false;
    }
    match spans.get(place - 1) {
        Some(span) => u64::from(number) < span.end,
        None => false,
    }
}
