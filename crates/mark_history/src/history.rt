// The history that marks make.
ghost use Rattle.std.specs.Prelude.{◌≡◌, ◌++◌, IfOk, OnOk};
ghost use Rattle.mark_history.specs.History.{points_by, points_of};
ghost use Rattle.mark_history.specs.Laters.{counts_by, later_of};

use crate::mark::{Mark, MarkKind};
use link_msg::{Counts, How};
use mur_base::{Copied, Items, Map, Memory, Point, What};
use std::alloc::Global;

/// The points of a history, in order.
pub type Points = Items<Point>;

/// What a mark says to the one of its command before it, which counts by that.
#[derive(Clone, Copy)]
enum Later {
    /// The client is told behind the step of the mark before.
    Behind,
    /// The client is told that its mailbox is reserved.
    Reserved,
    /// The mark before counts for nothing.
    Another,
}

/// The points of marks, found from the last mark to the first. Each mark takes logarithmic time.
pub fn points_of(alloc: Global, marks: &[Mark]) -> Result<Points, Memory>
    ensures { IfOk result (λ points. points ≡ points_of marks.now) }
{
    // what the next mark of each command says
    let mut next = Map::new(alloc);
    let mut points = Vec::new(alloc);
    let mut left = marks.len();
    while left > 0 {
        left -= 1;
        let mark = &marks[left];
        let key = (mark.ask.conn, mark.ask.command);
        put_point(alloc, mark, next.get(&key).copied(), &mut points)?;
        next.insert(key, later_of(&mark.kind))?;
    }
    points.reverse();
    Ok(Points::from_vec(points))
}

// Puts the point of a mark at the end, if it counts.
#[tactic(auto, unfolding(crate::specs::History::points_by))]
fn put_point(
    alloc: Global,
    mark: &Mark,
    next: Option<Later>,
    points: &mut Vec<Point>,
) -> Result<(), Memory>
    ensures { OnOk result (points.new.items ≡ points.old.items ++ points_by mark.now (counts_by mark.now.kind next)) }
{
    if let Some(what) = counts_by(alloc, &mark.kind, next)? {
        points.push(Point {
            step: mark.step,
            ask: mark.ask,
            what,
        })?;
    }
    Ok(())
}

#[tactic(auto, unfolding(crate::specs::Laters::later_of))]
fn later_of(kind: &MarkKind) -> Later
    ensures { result ≡ later_of kind.now }
{
    match kind {
        MarkKind::Told(How::Behind) => Later::Behind,
        MarkKind::Told(How::Reserved) => Later::Reserved,
        MarkKind::Told(How::Here | How::Unreached(_)) | MarkKind::Home(_) => Later::Another,
    }
}

// What a mark counts as, by what the next one of its command says.
#[tactic(auto, unfolding(crate::specs::Laters::counts_by, crate::specs::History::untold_as, crate::specs::History::refused_as))]
fn counts_by(alloc: Global, kind: &MarkKind, next: Option<Later>) -> Result<Option<What>, Memory>
    ensures { IfOk result (λ what. what ≡ counts_by kind.now next) }
{
    match (kind, next) {
        (MarkKind::Told(How::Here), _) | (MarkKind::Home(_), Some(Later::Behind)) => {
            Ok(Some(What::Reply))
        }
        (MarkKind::Told(How::Unreached(node)), _) => Ok(Some(What::Unreached(node.copy(alloc)?))),
        (MarkKind::Home(Counts::Always), None) => Ok(Some(What::Lost)),
        (MarkKind::Home(Counts::Always), Some(Later::Reserved)) => Ok(Some(What::Lost)),
        (MarkKind::Home(Counts::IfAnswered), Some(Later::Reserved)) => Ok(Some(What::Reserved)),
        _ => Ok(None),
    }
}
