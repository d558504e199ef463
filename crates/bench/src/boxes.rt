// Does each operation of a mailbox on boxes of 10,000 and of 20,000 messages of 1 KiB, and fails where a change costs a fifth
// more for each message in the larger box, or a reading a fifth more beside a plain copy of the bodies.
mod costs;
mod operating;
mod operation;
mod preparing;
mod trial;

use crate::fault::Fault;
use crate::making::repeat;
use crate::task::Task;
use costs::Costs;
use operation::OPERATIONS;
use preparing::BODY;

/// Runs all operations; where they are timed, each has to keep within its bound.
fn run_all(rt: &HostRuntime, bodies: &[u8], task: Task) -> Result<(), Fault> {
    let mut is_met = true;
    for operation in &OPERATIONS {
        let costs = Costs::of(rt, operation, bodies, task.rounds())?;
        match task {
            Task::Count => costs.print_counts(rt, operation.name)?,
            Task::Time(_) => {
                costs.print_times(rt, operation)?;
                is_met = is_met && costs.are_met(operation);
            }
        }
    }
    if is_met { Ok(()) } else { Err(Fault::Rise) }
}

pub fn run(rt: &HostRuntime, task: Task) -> Result<(), Fault> {
    let mut bodies = Vec::new(rt.alloc());
    repeat(&BODY, 20_000, &mut bodies)?;
    run_all(rt, bodies.as_slice(), task)
}
