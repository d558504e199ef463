// Reads and prints lines of MUPDATE, and decodes an entry of a disk, each beside plain work: long literals beside a copy of the bytes and a search
// in them, a FIND beside a SELECT of INBOX, an entry of 1 MiB beside a copy of it, and folds of entries beside folds of an eighth of them. It fails
// where one takes longer than its bound.
mod decoding;
mod finding;
mod folding;
mod literals;

use crate::fault::Fault;
use crate::task::Task;
use crate::times::{Cost, Which, Work, print_count, print_times};
use decoding::Decoding;
use finding::Finding;
use folding::{Fold, Folding};
use literals::{Cutting, Printing, Reading};

/// What is timed, how many times as long as the plain work it may take, and what that is.
#[derive(Clone, Copy)]
struct Measure {
    name: &'static str,
    most: u128,
    plain: &'static str,
}

const COPY_AND_SEARCH: &str = "a copy of the bytes and a search in them";

/// Does the work of a measure, and says whether it keeps within the bound.
fn measured<W: Work>(
    rt: &HostRuntime,
    task: Task,
    measure: Measure,
    work: W,
) -> Result<bool, Fault> {
    let cost = Cost::of(rt, Which::Thread, work, task.rounds())?;
    match task {
        Task::Count => {
            print_count(rt, measure.name, cost.done, "times")?;
            Ok(true)
        }
        Task::Time(_) => {
            print_times(rt, measure.name, cost.done, "times", cost)?;
            println!(rt; "{}, at most {}", measure.plain, measure.most)?;
            Ok(cost.is_within(measure.most))
        }
    }
}

/// Cuts, reads and prints lines with literals of 65,536 bytes.
fn run_literals(rt: &HostRuntime, task: Task) -> Result<bool, Fault> {
    let of = |name| Measure {
        name,
        most: 3,
        plain: COPY_AND_SEARCH,
    };
    let cut = measured(rt, task, of("literals cut"), Cutting::new(rt.alloc()))?;
    let read = measured(rt, task, of("literals read"), Reading::new(rt.alloc()))?;
    let printed = measured(rt, task, of("literals printed"), Printing::new(rt.alloc()))?;
    Ok(cut && read && printed)
}

/// Reads lines of FIND, and decodes an entry of 1 MiB.
fn run_others(rt: &HostRuntime, task: Task) -> Result<bool, Fault> {
    let find = Measure {
        name: "FIND read",
        most: 2,
        plain: "as many of SELECT INBOX",
    };
    let entry = Measure {
        name: "entry of 1 MiB decoded",
        most: 2,
        plain: "a copy of its bytes",
    };
    let found = measured(rt, task, find, Finding { alloc: rt.alloc() })?;
    let decoded = measured(rt, task, entry, Decoding::new(rt.alloc()))?;
    Ok(found && decoded)
}

/// Folds the entries of 4,096 names, and those of a mailbox of 20,000 messages.
fn run_folds(rt: &HostRuntime, task: Task) -> Result<bool, Fault> {
    let of = |name| Measure {
        name,
        most: 2,
        plain: "as many in eight folds",
    };
    let names = Folding::new(rt.alloc(), Fold::Names);
    let messages = Folding::new(rt.alloc(), Fold::Messages);
    let named = measured(rt, task, of("4,096 names folded"), names)?;
    let put = measured(rt, task, of("20,000 messages folded"), messages)?;
    Ok(named && put)
}

pub fn run(rt: &HostRuntime, task: Task) -> Result<(), Fault> {
    let literals = run_literals(rt, task)?;
    let others = run_others(rt, task)?;
    let folds = run_folds(rt, task)?;
    if literals && others && folds {
        Ok(())
    } else {
        Err(Fault::Slow)
    }
}
