// Writes made-up replies: what a FETCH tells of the flags of 20,000 messages, and of one body of 1 MiB. Beside each stands a copy
// of the bytes that were written.
mod load;

use crate::fault::Fault;
use crate::task::Task;
use crate::times::{Cost, Which, Work, print_count, print_times};
use imap_reply::write;
use load::{LOADS, Load};
use mur_base::{Bytes, Memory};
use mur_model::{Code, Reply, ReplyLines, Tag, Verdict};
use std::alloc::Global;

/// A reply, the bytes that were written of it, and how many rounds there are.
#[derive(Drop)]
struct Writing {
    alloc: Global,
    load: Load,
    tag: Tag,
    reply: Reply,
    text: Bytes,
    rounds: u32,
}

impl Writing {
    /// Before the reply has lines.
    fn new(alloc: Global, load: Load, rounds: u32) -> Result<Writing, Memory> {
        let tag = Bytes::from_slice(alloc, b"a1")?;
        let name = Bytes::from_slice(alloc, b"FETCH")?;
        Ok(Writing {
            alloc,
            load,
            tag: Tag::Text(tag),
            reply: Reply {
                lines: ReplyLines::new(alloc),
                verdict: Verdict::Ok(Code::None, name),
            },
            text: Bytes::new(alloc),
            rounds,
        })
    }
}

impl Work for Writing {
    fn prepare(&mut self) -> Result<(), Fault> {
        Ok(self.load.put(self.alloc, &mut self.reply.lines)?)
    }

    /// Writes the reply, each time into an empty list, and gives how many bytes it has.
    fn done(&mut self) -> Result<u64, Fault> {
        for _ in 0..self.rounds {
            let mut out = Bytes::new(self.alloc);
            write(&self.tag, &self.reply, &mut out)?;
            self.text = out;
        }
        Ok(self.text.len() as u64)
    }

    /// How many bytes the copies have.
    fn plain(&mut self, _done: u64) -> Result<u64, Fault> {
        let mut bytes: u64 = 0;
        for _ in 0..self.rounds {
            let copy = Bytes::from_slice(self.alloc, self.text.as_slice())?;
            bytes = bytes.wrapping_add(copy.len() as u64);
        }
        Ok(bytes)
    }
}

fn cost_of(rt: &HostRuntime, load: Load, rounds: u32) -> Result<Cost, Fault> {
    Cost::of(rt, Which::World, Writing::new(rt.alloc(), load, rounds)?, 1)
}

fn print(rt: &HostRuntime, name: &str, cost: Cost) -> Result<(), Fault> {
    print_times(rt, name, cost.plain, "bytes", cost)?;
    Ok(println!(rt; "the copy")?)
}

pub fn run(rt: &HostRuntime, task: Task) -> Result<(), Fault> {
    for load in &LOADS {
        let cost = cost_of(rt, *load, task.rounds())?;
        match task {
            Task::Count => print_count(rt, load.name(), cost.plain, "bytes")?,
            Task::Time(_) => print(rt, load.name(), cost)?,
        }
    }
    Ok(())
}
