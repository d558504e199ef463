// The events that were read so far.
ghost use Rattle.std.specs.Prelude.{◌≡◌, ◌++◌, ◌∷◌, [], OnOk};
ghost use Rattle.schedule_text.specs.ScheduleOpened.{is_opened, opened_before, unopened, opened_after, KnowsOpened};

use crate::event::{Event, Events};
use crate::schedule::fault::Rule;
use mur_base::{Items, Map, Memory};
use std::alloc::Global;

/// The events so far, and the connections that they opened.
#[derive(Drop)]
pub struct ReadSoFar {
    pub events: Events,
    pub opened: Map<u64, ()>,
}

impl ReadSoFar {
    /// Before the first line. It takes no memory.
    #[tactic(auto, unfolding(crate::specs::ScheduleOpened::is_opened))]
    pub fn new(alloc: Global) -> ReadSoFar
        ensures empty { result.events ≡ [] }
        ensures opened { KnowsOpened result }
    {
        ReadSoFar {
            events: Items::new(alloc),
            opened: Map::new(alloc),
        }
    }

    /// Whether the events so far opened a connection. It takes logarithmic time.
    fn is_opened(&self, conn: u64) -> bool
        requires { KnowsOpened self.now }
        ensures { result ≡ is_opened self.now.events conn }
    {
        self.opened.contains_key(&conn)
    }

    /// A connection that the events so far opened.
    #[tactic(auto, unfolding(crate::specs::ScheduleOpened::opened_before))]
    pub fn opened_before(&self, conn: u64) -> Result<(), Rule>
        requires { KnowsOpened self.now }
        ensures { result ≡ opened_before self.now.events conn }
    {
        if self.is_opened(conn) {
            Ok(())
        } else {
            Err(Rule::Connection)
        }
    }

    /// A connection that the events so far didn't open.
    #[tactic(auto, unfolding(crate::specs::ScheduleOpened::unopened))]
    pub fn unopened(&self, conn: u64) -> Result<(), Rule>
        requires { KnowsOpened self.now }
        ensures { result ≡ unopened self.now.events conn }
    {
        if self.is_opened(conn) {
            Err(Rule::Connection)
        } else {
            Ok(())
        }
    }

    /// Puts an event at the end; for want of memory the events are spent.
    pub fn add(&mut self, event: Event) -> Result<(), Memory>
        requires { KnowsOpened self.old }
        ensures events { OnOk result (self.new.events ≡ self.old.events ++ event ∷ []) }
        ensures opened { OnOk result (KnowsOpened self.new) }
    {
        note(&mut self.opened, &event)?;
        self.events.push(event)?;
        Ok(())
    }
}

#[tactic(auto, unfolding(crate::specs::ScheduleOpened::opened_after))]
fn note(opened: &mut Map<u64, ()>, event: &Event) -> Result<(), Memory>
    ensures { OnOk result (opened.new ≡ opened_after opened.old event.now) }
{
    if let Event::Open(_, conn) = event {
        opened.insert(*conn, ())?;
    }
    Ok(())
}
