// The events of a drill, part by part.
ghost use Rattle.std.specs.Prelude.{◌≡◌, ◌++◌, ◌≤◌, ◌<◌, ◌^◌, OnOk, suc};
ghost use Rattle.drill_gen.specs.Drill.{connection_of, opening, openings, sessions, making, command_events, transfer_events, crash_events, transfers_at, crashes_at, turn_by, turns};

use crate::commands::{command_text, making_text, moving_text, selecting_text};
use crate::names::{backend_named, frontend_of};
use crate::values::{backend_of, choice_of, deliveries_of, next_state, session_of, value_of};
use mur_base::Memory;
use schedule_text::{Event, Events};
use std::alloc::Global;

/// The deliveries after new connections, and around a crash.
const LONG_FLOW: u64 = 10_000;

/// The administrator makes the mailboxes.
#[tactic(auto, unfolding(crate::specs::Drill::making, crate::specs::Drill::frontend_of))]
pub fn put_making(alloc: Global, events: &mut Events) -> Result<(), Memory>
    ensures { OnOk result (events.new ≡ events.old ++ making) }
{
    events.push(Event::Open(frontend_of(alloc, 1)?, 1))?;
    events.push(Event::Data(1, making_text(alloc)?))?;
    events.push(Event::Flow(LONG_FLOW))
}

/// The eight sessions of a round begin.
#[tactic(auto, unfolding(crate::specs::Drill::sessions))]
pub fn put_sessions(alloc: Global, round: u64, events: &mut Events) -> Result<(), Memory>
    requires { round < 1000 }
    ensures { OnOk result (events.new ≡ events.old ++ sessions round) }
{
    put_openings(alloc, round, events)?;
    events.push(Event::Flow(LONG_FLOW))
}

#[tactic(auto, unfolding(crate::specs::Drill::openings))]
fn put_openings(alloc: Global, round: u64, events: &mut Events) -> Result<(), Memory>
    requires { round < 1000 }
    ensures { OnOk result (events.new ≡ events.old ++ openings round 8) }
{
    for before in 0..8 {
        put_opening(alloc, round, before + 1, events)?;
    }
    Ok(())
}

#[tactic(auto, unfolding(crate::specs::Drill::opening))]
fn put_opening(alloc: Global, round: u64, session: u64, events: &mut Events) -> Result<(), Memory>
    requires round { round < 1000 }
    requires session { session ≤ 8 }
    ensures { OnOk result (events.new ≡ events.old ++ opening round session) }
{
    let conn = connection_of(round, session);
    events.push(Event::Open(frontend_of(alloc, session)?, conn))?;
    events.push(Event::Data(conn, selecting_text(alloc, session)?))
}

#[tactic(auto, unfolding(crate::specs::Drill::connection_of))]
fn connection_of(round: u64, session: u64) -> u64
    requires round { round < 1000 }
    requires session { session ≤ 8 }
    ensures { result ≡ connection_of round session }
{
    1 + session + 8 * round
}

/// The turns of a number from the first on.
#[tactic(auto, unfolding(crate::specs::Drill::turns, crate::specs::Values::state_after, crate::specs::Values::value_at))]
pub fn put_turns(alloc: Global, number: u64, size: u32, events: &mut Events) -> Result<(), Memory>
    requires { size ≤ 9999 }
    ensures { OnOk result (events.new ≡ events.old ++ turns number size) }
{
    let mut state = number;
    for before in 0..size {
        state = next_state(state);
        put_turn(alloc, u64::from(before) + 1, value_of(state), events)?;
    }
    Ok(())
}

#[tactic(auto, unfolding(crate::specs::Drill::turn_by))]
fn put_turn(alloc: Global, turn: u64, value: u64, events: &mut Events) -> Result<(), Memory>
    requires first { 1 ≤ turn }
    requires last { turn ≤ 9999 }
    ensures { OnOk result (events.new ≡ events.old ++ turn_by turn value) }
{
    put_command_events(alloc, (turn - 1) / 100, value, events)?;
    put_transfers(alloc, turn, value, events)?;
    put_crashes(alloc, turn, value, events)
}

#[tactic(auto, unfolding(crate::specs::Drill::command_events))]
fn put_command_events(
    alloc: Global,
    round: u64,
    value: u64,
    events: &mut Events,
) -> Result<(), Memory>
    requires { round < 1000 }
    ensures { OnOk result (events.new ≡ events.old ++ command_events round value) }
{
    let conn = connection_of(round, session_of(value));
    events.push(Event::Data(conn, command_text(alloc, value)?))?;
    events.push(Event::Flow(deliveries_of(value)))
}

#[tactic(auto, unfolding(crate::specs::Drill::transfers_at))]
fn put_transfers(alloc: Global, turn: u64, value: u64, events: &mut Events) -> Result<(), Memory>
    requires { turn ≤ 9999 }
    ensures { OnOk result (events.new ≡ events.old ++ transfers_at turn value) }
{
    if turn % 40 == 0 {
        put_transfer(alloc, turn, value, events)
    } else {
        Ok(())
    }
}

/// An administrator connects and moves a mailbox.
#[tactic(auto, unfolding(crate::specs::Drill::transfer_events, crate::specs::Drill::frontend_of))]
fn put_transfer(alloc: Global, turn: u64, value: u64, events: &mut Events) -> Result<(), Memory>
    requires { turn ≤ 9999 }
    ensures { OnOk result (events.new ≡ events.old ++ transfer_events turn value) }
{
    let text = moving_text(alloc, session_of(value), backend_of(value))?;
    events.push(Event::Open(frontend_of(alloc, 1)?, 1000 + turn))?;
    events.push(Event::Data(1000 + turn, text))
}

#[tactic(auto, unfolding(crate::specs::Drill::crashes_at))]
fn put_crashes(alloc: Global, turn: u64, value: u64, events: &mut Events) -> Result<(), Memory>
    requires { turn ≤ 9999 }
    ensures { OnOk result (events.new ≡ events.old ++ crashes_at turn value) }
{
    if turn % 100 != 0 {
        return Ok(());
    }
    put_crash(alloc, value, events)?;
    put_sessions(alloc, turn / 100, events)
}

/// A backend crashes and starts again.
#[tactic(auto, unfolding(crate::specs::Drill::crash_events))]
fn put_crash(alloc: Global, value: u64, events: &mut Events) -> Result<(), Memory>
    ensures { OnOk result (events.new ≡ events.old ++ crash_events value) }
{
    let backend = backend_of(value);
    events.push(Event::Crash(backend_named(alloc, backend)?, choice_of(value), 1))?;
    events.push(Event::Flow(LONG_FLOW))?;
    events.push(Event::Start(backend_named(alloc, backend)?))?;
    events.push(Event::Heal)?;
    events.push(Event::Flow(LONG_FLOW))
}
