// The drill of a number and a size.
ghost use Rattle.std.specs.Prelude.{◌≡◌, ◌≤◌, IfOk};
ghost use Rattle.schedule_text.specs.ScheduleFits.{HasCountRoom};
ghost use Rattle.drill_gen.specs.Drill.{drill_events};
ghost use Rattle.drill_gen.specs.DrillCluster.{drill_config};

use crate::cluster::drill_config;
use crate::turns::{put_making, put_sessions, put_turns};
use mur_base::{Items, Memory};
use mur_config::Config;
use schedule_text::{Event, Events};
use std::alloc::Global;

/// The deliveries at the end.
const LAST_FLOW: u64 = 100_000;

/// The cluster and the events of a drill, whose size is 1 to 9,999 commands.
#[tactic(auto, unfolding(crate::specs::Drill::drill_events))]
pub fn drill(alloc: Global, number: u64, size: u32) -> Result<(Config, Events), Memory>
    requires some { 1 ≤ size }
    requires few { size ≤ 9999 }
    ensures cluster { IfOk result (λ made. made.0 ≡ drill_config) }
    ensures events { IfOk result (λ made. made.1 ≡ drill_events number size) }
    ensures room { HasCountRoom (drill_events number size) }
{
    let config = drill_config(alloc)?;
    let mut events = Items::new(alloc);
    put_making(alloc, &mut events)?;
    put_sessions(alloc, 0, &mut events)?;
    put_turns(alloc, number, size, &mut events)?;
    events.push(Event::Flow(LAST_FLOW))?;
    Ok((config, events))
}
