// What is on its way between the nodes.
ghost use Rattle.std.specs.Prelude.{◌≡◌, [], ◌∷◌, ◌++◌, drop, take, IfOk, OnOk, IsTrue, ◌↔◌};
ghost use Rattle.std.specs.Option.{IfNone, IfSome};
ghost use Rattle.std.specs.Ordering.{nat_cmp};
ghost use Rattle.std.specs.Cmp.Lexicographic.{slice_cmp};
ghost use Rattle.mur_base.specs.Map.{with_entry};
ghost use Rattle.link_queue.specs.Links.{cut_short, on_link, queue_to, sent, without_first};

use mur_base::{Copied, Map, Memory, NodeName, Queue};
use std::alloc::Global;

/// What is on its way from one node, by the node that it goes to.
pub type Ways<Message> = Map<NodeName, Queue<Message>>;

/// What is on its way, by the node that it comes from.
pub type Links<Message> = Map<NodeName, Ways<Message>>;

/// Puts a message behind the others on their way from one node to another. For want of memory the links are spent.
#[tactic(auto, unfolding(crate::specs::Links::sent, crate::specs::Links::on_link), using(crate::proofs::Entries::entered_name))]
pub fn send<Message: Drop>(
    alloc: Global,
    links: &mut Links<Message>,
    from: &NodeName,
    to: NodeName,
    message: Message,
) -> Result<(), Memory>
    ensures { OnOk result (links.new ≡ sent links.old from.now to message) }
{
    match links.get_mut(from) {
        Some(ways) => send_way(alloc, ways, to, message),
        None => {
            let mut ways = Map::new(alloc);
            send_way(alloc, &mut ways, to, message)?;
            links.insert(from.copy(alloc)?, ways)?;
            Ok(())
        }
    }
}

#[tactic(auto, using(crate::proofs::Entries::entered_name))]
fn send_way<Message: Drop>(
    alloc: Global,
    ways: &mut Ways<Message>,
    to: NodeName,
    message: Message,
) -> Result<(), Memory>
    ensures { OnOk result (ways.new ≡ with_entry (slice_cmp nat_cmp) ways.old to (queue_to ways.old to ++ message ∷ [])) }
{
    match ways.get_mut(&to) {
        Some(queue) => queue.push(message),
        None => {
            let mut queue = Queue::new(alloc);
            queue.push(message)?;
            ways.insert(to, queue)?;
            Ok(())
        }
    }
}

/// Takes the first message on its way from one node to another, if there is one.
#[tactic(auto, unfolding(crate::specs::Links::without_first, crate::specs::Links::on_link), using(crate::proofs::Entries::by_entry))]
pub fn take_first<Message>(
    links: &mut Links<Message>,
    from: &NodeName,
    to: &NodeName,
) -> Option<Message>
    ensures empty { IfNone result ((on_link links.old from.now to.now ≡ []) × (links.new ≡ links.old)) }
    ensures first { IfSome result (λ message. on_link links.old from.now to.now ≡ message ∷ drop 1 (on_link links.old from.now to.now)) }
    ensures taken { IfSome result (λ message. links.new ≡ without_first links.old from.now to.now) }
{
    match links.get_mut(from) {
        Some(ways) => take_way(ways, to),
        None => None,
    }
}

#[tactic(auto, using(crate::proofs::Entries::by_entry))]
fn take_way<Message>(ways: &mut Ways<Message>, to: &NodeName) -> Option<Message>
    ensures empty { IfNone result ((queue_to ways.old to.now ≡ []) × (ways.new ≡ ways.old)) }
    ensures first { IfSome result (λ message. queue_to ways.old to.now ≡ message ∷ drop 1 (queue_to ways.old to.now)) }
    ensures taken { IfSome result (λ message. ways.new ≡ with_entry (slice_cmp nat_cmp) ways.old to.now (drop 1 (queue_to ways.old to.now))) }
{
    match ways.get_mut(to) {
        Some(queue) => queue.pop(),
        None => None,
    }
}

/// Keeps only so many of the messages on their way from one node to another, and puts this one behind them. For want of memory the links are spent.
#[tactic(auto, unfolding(crate::specs::Links::cut_short, crate::specs::Links::on_link), using(crate::proofs::Entries::entered_name))]
pub fn cut_short<Message: Drop>(
    alloc: Global,
    links: &mut Links<Message>,
    from: &NodeName,
    to: &NodeName,
    keeps: u64,
    last: Message,
) -> Result<(), Memory>
    ensures { OnOk result (links.new ≡ cut_short links.old from.now to.now keeps last) }
{
    match links.get_mut(from) {
        Some(ways) => cut_way(alloc, ways, to, keeps, last),
        None => {
            let mut ways = Map::new(alloc);
            cut_way(alloc, &mut ways, to, keeps, last)?;
            links.insert(from.copy(alloc)?, ways)?;
            Ok(())
        }
    }
}

#[tactic(auto, using(crate::proofs::Entries::entered_name))]
fn cut_way<Message: Drop>(
    alloc: Global,
    ways: &mut Ways<Message>,
    to: &NodeName,
    keeps: u64,
    last: Message,
) -> Result<(), Memory>
    ensures { OnOk result (ways.new ≡ with_entry (slice_cmp nat_cmp) ways.old to.now (take keeps (queue_to ways.old to.now) ++ last ∷ [])) }
{
    match ways.get_mut(to) {
        Some(queue) => {
            *queue = first_of(alloc, queue, keeps)?;
            queue.push(last)
        }
        None => {
            let mut queue = Queue::new(alloc);
            queue.push(last)?;
            ways.insert(to.copy(alloc)?, queue)?;
            Ok(())
        }
    }
}

/// So many of the first messages of a queue, or all, taken out of it.
fn first_of<Message: Drop>(
    alloc: Global,
    queue: &mut Queue<Message>,
    keeps: u64,
) -> Result<Queue<Message>, Memory>
    ensures { IfOk result (λ kept. kept ≡ take keeps queue.old) }
{
    let mut kept = Queue::new(alloc);
    for _message in 0..keeps {
        match queue.pop() {
            Some(message) => kept.push(message)?,
            None => return Ok(kept),
        }
    }
    Ok(kept)
}

/// Whether nothing is on its way from one node to another.
#[tactic(auto, unfolding(crate::specs::Links::on_link))]
pub fn is_empty<Message>(links: &Links<Message>, from: &NodeName, to: &NodeName) -> bool
    ensures { IsTrue result ↔ (on_link links.now from.now to.now ≡ []) }
{
    let Some(ways) = links.get(from) else {
        return true;
    };
    match ways.get(to) {
        Some(queue) => queue.is_empty(),
        None => true,
    }
}
