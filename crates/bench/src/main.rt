//! Times libraries of the Murder, each beside plain work on the same bytes:
//! `bench frames|commands|replies|lists|boxes|search|configurations|mupdate ROUNDS` does what the bench does so many times, and says how long it
//! took. Without a number each is done once, and only what it came to is counted; without a word that is done of all eight.
#![tactic(auto)]

mod boxes;
mod commands;
mod configurations;
mod fault;
mod frames;
mod lists;
mod making;
mod mupdate;
mod replies;
mod search;
mod task;
mod times;

use crate::fault::Fault;
use crate::task::Task;
use anyhow::{Result, anyhow};
use std::env;

/// What is timed.
#[derive(Clone, Copy)]
enum Bench {
    Frames,
    Commands,
    Replies,
    Lists,
    Boxes,
    Search,
    Configurations,
    Mupdate,
}

static BENCHES: [(&str, Bench); 8] = [
    ("frames", Bench::Frames),
    ("commands", Bench::Commands),
    ("replies", Bench::Replies),
    ("lists", Bench::Lists),
    ("boxes", Bench::Boxes),
    ("search", Bench::Search),
    ("configurations", Bench::Configurations),
    ("mupdate", Bench::Mupdate),
];

impl Bench {
    fn named(word: &str) -> Result<Bench, Fault> {
        for (name, bench) in &BENCHES {
            if *name == word {
                return Ok(*bench);
            }
        }
        Err(Fault::Usage)
    }

    fn run(self, rt: &HostRuntime, task: Task) -> Result<(), Fault> {
        match self {
            Bench::Frames => frames::run(rt, task),
            Bench::Commands => commands::run(rt, task),
            Bench::Replies => replies::run(rt, task),
            Bench::Lists => lists::run(rt, task),
            Bench::Boxes => boxes::run(rt, task),
            Bench::Search => search::run(rt, task),
            Bench::Configurations => configurations::run(rt, task),
            Bench::Mupdate => mupdate::run(rt, task),
        }
    }
}

/// Runs the bench that the words ask for, or all without a word.
fn run(rt: &HostRuntime) -> Result<(), Fault> {
    let mut words = env::args(rt)?;
    run_words(rt, words.nth(1).as_deref(), words.next().as_deref())
}

fn run_words(rt: &HostRuntime, bench: Option<&str>, rounds: Option<&str>) -> Result<(), Fault> {
    match bench {
        Some(bench) => Bench::named(bench)?.run(rt, Task::asked(rounds)?),
        None => run_all(rt),
    }
}

fn run_all(rt: &HostRuntime) -> Result<(), Fault> {
    for (_, bench) in &BENCHES {
        bench.run(rt, Task::Count)?;
    }
    Ok(())
}

fn main(rt: HostRuntime) -> Result<()> {
    match run(&rt) {
        Ok(()) => Ok(()),
        Err(fault) => Err(anyhow!("{}", fault.text())),
    }
}
