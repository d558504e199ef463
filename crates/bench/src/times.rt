// What work takes, and plain work beside it.
use crate::fault::Fault;
use std::fmt;
use std::time::{Clock, CpuClock, Duration};

/// What is timed.
pub trait Work: Drop {
    /// Makes all that it takes, which isn't timed.
    fn prepare(&mut self) -> Result<(), Fault>;

    /// Does it, and gives how many it came to.
    fn done(&mut self) -> Result<u64, Fault>;

    /// Does plain work beside it, and gives how many that came to.
    fn plain(&mut self, done: u64) -> Result<u64, Fault>;
}

/// Which time counts.
#[derive(Clone, Copy)]
pub enum Which {
    /// That of the world.
    World,
    /// That which this thread had of a processor.
    Thread,
}

impl Which {
    fn now(self, rt: &HostRuntime) -> Result<Duration, Fault> {
        let time = match self {
            Which::World => rt.monotonic(),
            Which::Thread => rt.thread_cpu_time(),
        };
        Ok(time?)
    }
}

/// How many work and the plain work beside it came to, and the nanoseconds that they took.
#[derive(Clone, Copy)]
pub struct Cost {
    pub done: u64,
    pub plain: u64,
    pub took: u128,
    pub plain_took: u128,
}

impl Cost {
    /// Before the first round.
    pub const NONE: Cost = Cost {
        done: 0,
        plain: 0,
        took: u128::MAX,
        plain_took: u128::MAX,
    };

    /// Prepares work, and does it so many times, each time with the plain work behind it; gives what the last time came to and
    /// the least times. The work is let go here.
    pub fn of<W: Work>(
        rt: &HostRuntime,
        which: Which,
        work: W,
        rounds: u32,
    ) -> Result<Cost, Fault> {
        let mut work = work;
        work.prepare()?;
        let mut cost = Cost::NONE;
        for _ in 0..rounds {
            cost = cost.with(Cost::of_round(rt, which, &mut work)?);
        }
        Ok(cost)
    }

    fn of_round<W: Work>(rt: &HostRuntime, which: Which, work: &mut W) -> Result<Cost, Fault> {
        let start = which.now(rt)?;
        let done = work.done()?;
        let between = which.now(rt)?;
        let plain = work.plain(done)?;
        let end = which.now(rt)?;
        Ok(Cost {
            done,
            plain,
            took: between.saturating_sub(start).as_nanos(),
            plain_took: end.saturating_sub(between).as_nanos(),
        })
    }

    /// With a round more: what it came to, and the least times.
    pub fn with(self, round: Cost) -> Cost {
        Cost {
            done: round.done,
            plain: round.plain,
            took: self.took.min(round.took),
            plain_took: self.plain_took.min(round.plain_took),
        }
    }

    /// How many it came to; none where the plain work came to none.
    pub fn count(self) -> u64 {
        if self.plain == 0 { 0 } else { self.done }
    }

    /// How many times as long as the plain work it took.
    pub fn ratio(self) -> Tenths {
        Tenths(self.took.saturating_mul(10) / self.plain_took.max(1))
    }

    /// Whether it took at most so many times as long as the plain work.
    pub fn is_within(self, most: u128) -> bool {
        self.took <= self.plain_took.saturating_mul(most)
    }

    /// The same times, in whole microseconds.
    pub fn in_microseconds(self) -> Cost {
        Cost {
            took: self.took / 1_000,
            plain_took: self.plain_took / 1_000,
            ..self
        }
    }
}

/// So many tenths, printed as in `1.3`.
#[derive(Clone, Copy)]
pub struct Tenths(u128);

impl fmt::Display for Tenths {
    fn fmt<W: fmt::Write>(&self, f: &mut fmt::Formatter<W>) -> fmt::Result {
        write!(f, "{}.{}", self.0 / 10, self.0 % 10)
    }
}

/// Prints `NAME: COUNT THINGS`.
pub fn print_count(rt: &HostRuntime, name: &str, count: u64, things: &str) -> Result<(), Fault> {
    Ok(println!(rt; "{name}: {count} {things}")?)
}

/// Prints `NAME: COUNT THINGS in TOOK microseconds, RATIO times `, behind which stands what the plain work is.
pub fn print_times(
    rt: &HostRuntime,
    name: &str,
    count: u64,
    things: &str,
    cost: Cost,
) -> Result<(), Fault> {
    let cost = cost.in_microseconds();
    let (took, ratio) = (cost.took, cost.ratio());
    Ok(print!(rt; "{name}: {count} {things} in {took} microseconds, {ratio} times ")?)
}
