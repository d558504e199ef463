// Reads the texts of configurations. Beside each stands `serde_json` alone, which reads the same text as a JSON value.
mod load;

use crate::fault::Fault;
use crate::task::Task;
use crate::times::{Cost, Which, Work, print_count, print_times};
use load::{LOADS, Load};
use mur_base::Bytes;
use mur_config::{ConfigError, read_config};
use serde_json::Value;
use std::alloc::Global;

/// A text that is read.
#[derive(Drop)]
struct Reading {
    alloc: Global,
    load: Load,
    text: Bytes,
}

impl Work for Reading {
    fn prepare(&mut self) -> Result<(), Fault> {
        Ok(self.load.put(&mut self.text)?)
    }

    /// How many users the configuration has; none where the text is refused.
    fn done(&mut self) -> Result<u64, Fault> {
        match read_config(self.alloc, self.text.as_slice()) {
            Ok(config) => Ok(config.users.as_slice().len() as u64),
            Err(ConfigError::Refused(_)) => Ok(0),
            Err(ConfigError::Memory) => Err(Fault::Memory),
        }
    }

    /// How many bytes `serde_json` has read, of which it made a value or none.
    fn plain(&mut self, _done: u64) -> Result<u64, Fault> {
        match Value::from_slice(self.alloc, self.text.as_slice()) {
            Err(error) if error.is_memory() => Err(Fault::Memory),
            _ => Ok(self.text.len() as u64),
        }
    }
}

fn cost_of(rt: &HostRuntime, load: Load, rounds: u32) -> Result<Cost, Fault> {
    let reading = Reading {
        alloc: rt.alloc(),
        load,
        text: Bytes::new(rt.alloc()),
    };
    Cost::of(rt, Which::Thread, reading, rounds)
}

/// Prints what the least round took, which is at most twice the time of `serde_json` alone.
fn print(rt: &HostRuntime, name: &str, cost: Cost) -> Result<(), Fault> {
    print_times(rt, name, cost.plain, "bytes", cost)?;
    println!(rt; "serde_json alone")?;
    if cost.is_within(2) {
        Ok(())
    } else {
        Err(Fault::Slow)
    }
}

pub fn run(rt: &HostRuntime, task: Task) -> Result<(), Fault> {
    for load in &LOADS {
        let cost = cost_of(rt, *load, task.rounds())?;
        match task {
            Task::Count => print_count(rt, load.name(), cost.count(), "users")?,
            Task::Time(_) => print(rt, load.name(), cost)?,
        }
    }
    Ok(())
}
