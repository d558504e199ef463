// Schedules, printed.
use case_base::{Fault, bytes_of};
use mur_base::Bytes;
use mur_config::{Config, read_config};
use schedule_text::{Events, print_schedule, put_text, read_schedule};
use std::alloc::Global;

/// The cluster of which the events are.
const CONFIG: &[u8] = br#"{"nodes":[{"name":"m","kind":"master"},{"name":"f1","kind":"frontend"},
    {"name":"b1","kind":"backend","partition":"p"}],"users":[],"date":"17-Jul-1996 02:44:25 -0700"}"#;

/// Puts what is printed of a schedule's events.
pub fn put(alloc: Global, schedule: &str, out: &mut Bytes) -> Result<(), Fault> {
    let Ok(config) = read_config(alloc, CONFIG) else {
        return Err(Fault::Unreadable("no configuration"));
    };
    let text = bytes_of(alloc, schedule)?;
    match read_schedule(alloc, text.as_slice(), &config) {
        Ok(events) => put_events(alloc, &events, &config, out),
        Err(_) => Err(Fault::Unreadable("no schedule")),
    }
}

/// Puts what is printed of events.
fn put_events(
    alloc: Global,
    events: &Events,
    config: &Config,
    out: &mut Bytes,
) -> Result<(), Fault> {
    let printed = print_schedule(alloc, events, config)?;
    Ok(put_text(printed.as_slice(), out)?)
}
