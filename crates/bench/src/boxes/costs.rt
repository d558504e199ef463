// What an operation costs, and how that rises when the box doubles.
use super::operation::Operation;
use super::trial::Trial;
use crate::fault::Fault;
use crate::times::{Cost, Which};

/// Thousandths by which a cost is multiplied at most when the box doubles.
const BOUND: u128 = 1_200;

/// Messages of the smaller boxes; the larger ones have twice as many.
const SIZE: u32 = 10_000;

/// The costs of an operation on a box and on one of twice as many messages: what the least round of each took of a processor,
/// and the least plain copy of as many bodies.
#[derive(Clone, Copy)]
pub struct Costs {
    single: Cost,
    double: Cost,
}

impl Costs {
    /// Does an operation on boxes of both sizes in turn, so that they meet the same machine.
    pub fn of(
        rt: &HostRuntime,
        operation: &Operation,
        bodies: &[u8],
        rounds: u32,
    ) -> Result<Costs, Fault> {
        let mut single = Cost::NONE;
        let mut double = Cost::NONE;
        for _ in 0..rounds {
            single = single.with(round(rt, operation, bodies, SIZE)?);
            double = double.with(round(rt, operation, bodies, 2 * SIZE)?);
        }
        Ok(Costs { single, double })
    }

    /// Whether messages were touched, and the cost of each rises by less than a fifth.
    pub fn are_met(self, operation: &Operation) -> bool {
        self.single.plain > 0 && self.double.plain > 0 && self.rise(operation) < BOUND
    }

    /// Thousandths by which the cost of a message is multiplied when the box doubles; of a reading what it costs beside the copy.
    fn rise(self, operation: &Operation) -> u128 {
        let (single, double) = if operation.is_reading {
            (beside(self.single), beside(self.double))
        } else {
            (each(self.single), each(self.double))
        };
        double.saturating_mul(1_000) / single.max(1)
    }

    pub fn print_counts(self, rt: &HostRuntime, name: &str) -> Result<(), Fault> {
        let (few, many) = (self.single.plain, self.double.plain);
        Ok(println!(rt; "{name}: {few} and {many} touched")?)
    }

    pub fn print_times(self, rt: &HostRuntime, operation: &Operation) -> Result<(), Fault> {
        let name = operation.name;
        let (few, many) = (each(self.single) / 1_000, each(self.double) / 1_000);
        let rise = self.rise(operation);
        let (whole, rest) = (rise / 1_000, rise % 1_000 / 10);
        print!(rt; "{name}: {few} and {many} ns a message, {whole}.{rest:02} times; ")?;
        let (one, other) = (self.single.ratio(), self.double.ratio());
        Ok(println!(rt; "{one} and {other} times a copy of the bodies")?)
    }
}

/// Thousandths of a nanosecond that a message took.
fn each(cost: Cost) -> u128 {
    cost.took.saturating_mul(1_000) / u128::from(cost.plain).max(1)
}

/// Thousandths of the time of the copy.
fn beside(cost: Cost) -> u128 {
    cost.took.saturating_mul(1_000) / cost.plain_took.max(1)
}

/// A round on a box that is made anew.
fn round(rt: &HostRuntime, operation: &Operation, bodies: &[u8], size: u32) -> Result<Cost, Fault> {
    let trial = Trial::new(rt.alloc(), operation, size, bodies);
    Cost::of(rt, Which::Thread, trial, 1)
}
