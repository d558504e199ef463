// A schedule, read into its events: a recorded run, one event a line.
ghost use Rattle.std.specs.Prelude.{◌≡◌, ◌≤◌, List, length, IfErr, IfOk, OnOk};
ghost use Rattle.schedule_text.specs.ScheduleRules.{IsReadByRule, IsReadAsSchedule};
ghost use Rattle.schedule_text.specs.ScheduleOpened.{KnowsOpened};
ghost use Rattle.schedule_text.specs.ScheduleFits.{FitSchedule, HasCountRoom};
ghost use Rattle.schedule_text.specs.Meaning.{HasCause, IsSchedule, IsReadAsEvents};
ghost use Rattle.schedule_text.specs.declared.event.Event.{Event};
ghost use Rattle.schedule_text.specs.Schedule.{event_of, is_passed_over, line_read, schedule_of, IsTakenAs};

mod fault;
mod nodes;
mod read_so_far;
mod rows;
mod words;

use crate::cuts::{LineCuts, line_in};
use crate::event::{Event, Events};
use crate::words::word_named;
pub use fault::{LineError, Rule, SchedFault, ScheduleError};
use mur_base::limits::SCHEDULE_LIMIT;
use mur_config::Config;
use read_so_far::ReadSoFar;
use rows::event_in;
use std::alloc::Global;
use words::arguments_in;
pub use words::{Cut, split_word};

/// The events of a schedule. The first line that breaks a rule refuses it, by the first rule that it breaks; before
/// all lines stands that a schedule has at most `SCHEDULE_LIMIT` bytes.
#[tactic(auto, unfolding(crate::specs::Schedule::schedule_of, crate::specs::Schedule::events_from))]
pub fn read_schedule(alloc: Global, bytes: &[u8], config: &Config) -> Result<Events, ScheduleError>
    ensures read { IsReadAsSchedule (schedule_of config.now bytes.now) result }
    ensures spelled { IfOk result (IsSchedule config.now bytes.now) }
    ensures refused { IfErr result (HasCause config.now bytes.now) }
    ensures taken { (events : List Event) → IsSchedule config.now bytes.now events → IsReadAsEvents events result }
    ensures fit { IfOk result (FitSchedule (length bytes.now)) }
    ensures room { IfOk result (λ events. HasCountRoom events) }
    ensures short { IfOk result (λ events. length bytes.now ≤ SCHEDULE_LIMIT) }
{
    if bytes.len() > SCHEDULE_LIMIT {
        return Err(ScheduleError::Refused(SchedFault {
            line: 0,
            why: Rule::TooLong,
        }));
    }
    let mut so_far = ReadSoFar::new(alloc);
    let mut number = 0;
    for piece in LineCuts::new(bytes) {
        number += 1;
        take_schedule_line(alloc, &mut so_far, config, number, line_in(piece))?;
    }
    let ReadSoFar { events, .. } = so_far;
    Ok(events)
}

/// Puts the event of a line, if it has one, behind the events before.
#[tactic(auto, unfolding(crate::specs::Schedule::line_read))]
fn take_schedule_line(
    alloc: Global,
    so_far: &mut ReadSoFar,
    config: &Config,
    number: u64,
    line: &[u8],
) -> Result<(), ScheduleError>
    requires { KnowsOpened so_far.old }
    ensures read { IsTakenAs (line_read config.now number so_far.old.events line.now) so_far.new.events result }
    ensures opened { OnOk result (KnowsOpened so_far.new) }
{
    if is_passed_over(line) {
        return Ok(());
    }
    match read_event(alloc, line, config, so_far) {
        Ok(event) => so_far.add(event)?,
        Err(LineError::Broken(why)) => {
            return Err(ScheduleError::Refused(SchedFault { line: number, why }));
        }
        Err(LineError::Memory) => return Err(ScheduleError::Memory),
    }
    Ok(())
}

#[tactic(auto, unfolding(crate::specs::Schedule::is_passed_over))]
fn is_passed_over(line: &[u8]) -> bool
    ensures { result ≡ is_passed_over line.now }
{
    match line {
        [] => true,
        [first, ..] => *first == b'#',
    }
}

/// The event of a line: its word is tested first, then the count of its arguments, then each argument.
#[tactic(auto, unfolding(crate::specs::Schedule::event_of))]
fn read_event(
    alloc: Global,
    line: &[u8],
    config: &Config,
    so_far: &ReadSoFar,
) -> Result<Event, LineError>
    requires { KnowsOpened so_far.now }
    ensures { IsReadByRule (event_of config.now so_far.now.events line.now) result }
{
    let cut = split_word(line);
    let word = word_named(cut.word)?;
    let arguments = arguments_in(word.kinds(), cut.rest)?;
    event_in(alloc, config, so_far, word, arguments.as_slice())
}
