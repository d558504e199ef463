// Reads made-up frames as commands: short ones, lines of the greatest length, and messages of up to the greatest. Beside each
// stands a search of the same bytes for one that isn't there, the least that a reader of all bytes does.
mod load;

use crate::fault::Fault;
use crate::task::Task;
use crate::times::{Cost, Which, Work, print_times};
use imap_command::read;
use load::{LOADS, Load};
use memchr::memchr;
use std::alloc::Global;

/// A frame, and how many rounds there are.
#[derive(Drop)]
struct Reading<'a> {
    alloc: Global,
    load: &'a Load,
    frame: Vec<u8>,
    rounds: u32,
}

impl Reading<'_> {
    /// How often it is read.
    fn times(&self) -> u64 {
        u64::from(self.load.times) * u64::from(self.rounds)
    }
}

impl Work for Reading<'_> {
    fn prepare(&mut self) -> Result<(), Fault> {
        Ok(self.load.frame.put(&mut self.frame)?)
    }

    /// How many commands are read.
    fn done(&mut self) -> Result<u64, Fault> {
        let mut commands: u64 = 0;
        for _ in 0..self.times() {
            let is_read = is_value(read(self.alloc, self.frame.as_slice()));
            commands = commands.wrapping_add(u64::from(is_read));
        }
        Ok(commands)
    }

    /// How many searches find a byte that no frame has. The byte changes, so that no search stands for the next.
    fn plain(&mut self, _done: u64) -> Result<u64, Fault> {
        let mut found: u64 = 0;
        for time in 0..self.times() {
            let absent = if time % 2 == 0 { 0 } else { 1 };
            found = found.wrapping_add(u64::from(memchr(absent, self.frame.as_slice()).is_some()));
        }
        Ok(found)
    }
}

/// Lets a result of any kind go, which costs the prover less than to let a command go where it is read.
fn is_value<T: Drop, E: Drop>(outcome: Result<T, E>) -> bool {
    outcome.is_ok()
}

fn cost_of(rt: &HostRuntime, load: &Load, rounds: u32) -> Result<Cost, Fault> {
    let reading = Reading {
        alloc: rt.alloc(),
        load,
        frame: Vec::new(rt.alloc()),
        rounds,
    };
    Cost::of(rt, Which::World, reading, 1)
}

fn print_counts(rt: &HostRuntime, name: &str, cost: Cost) -> Result<(), Fault> {
    let (commands, found) = (cost.done, cost.plain);
    Ok(println!(rt; "{name}: {commands} commands, {found} found")?)
}

fn print(rt: &HostRuntime, name: &str, cost: Cost) -> Result<(), Fault> {
    print_times(rt, name, cost.done, "commands", cost)?;
    Ok(println!(rt; "the search")?)
}

pub fn run(rt: &HostRuntime, task: Task) -> Result<(), Fault> {
    for load in &LOADS {
        let cost = cost_of(rt, load, task.rounds())?;
        match task {
            Task::Count => print_counts(rt, load.name, cost)?,
            Task::Time(_) => print(rt, load.name, cost)?,
        }
    }
    Ok(())
}
