// Searches 20,000 messages, beside a plain pass that reads the UID and the flags of each, and fetches a body of 1 MiB beside one
// plain copy. The fastest rounds count.
mod fetching;
mod load;
mod message;
mod searching;

use crate::fault::Fault;
use crate::task::Task;
use crate::times::{Cost, Which, print_count};
use fetching::Fetching;
use load::{LOADS, Load};
use message::day;
use searching::{MESSAGES, Searching};

fn print_search(rt: &HostRuntime, name: &str, cost: Cost) -> Result<(), Fault> {
    let each = cost.took / u128::from(MESSAGES);
    let thousands = u128::from(MESSAGES).saturating_mul(1_000_000) / cost.took.max(1);
    let ratio = cost.ratio();
    Ok(println!(rt;
        "{name}: {each} ns a message, {thousands} thousand messages a second, {ratio} times a plain pass"
    )?)
}

fn print_fetch(rt: &HostRuntime, cost: Cost) -> Result<(), Fault> {
    let took = cost.took / 1_000;
    let ratio = cost.ratio();
    Ok(println!(rt; "BODY[] of 1 MiB: {took} microseconds, {ratio} times a copy")?)
}

fn cost_of_search(rt: &HostRuntime, load: Load, rounds: u32) -> Result<Cost, Fault> {
    let searching = Searching::new(rt.alloc(), load);
    Cost::of(rt, Which::World, searching, rounds)
}

fn cost_of_fetch(rt: &HostRuntime, rounds: u32) -> Result<Cost, Fault> {
    let fetching = Fetching::new(rt.alloc(), day(1)?);
    Cost::of(rt, Which::World, fetching, rounds)
}

pub fn run(rt: &HostRuntime, task: Task) -> Result<(), Fault> {
    for load in &LOADS {
        let cost = cost_of_search(rt, *load, task.rounds())?;
        match task {
            Task::Count => print_count(rt, load.name(), cost.count(), "found")?,
            Task::Time(_) => print_search(rt, load.name(), cost)?,
        }
    }
    let cost = cost_of_fetch(rt, task.rounds())?;
    match task {
        Task::Count => print_count(rt, "BODY[] of 1 MiB", cost.count(), "bytes"),
        Task::Time(_) => print_fetch(rt, cost),
    }
}
