// The merge of logs, two lists of steps at a time.
ghost use Rattle.std.specs.Prelude.{◌≡◌, ◌+◌, ◌++◌, [], length, IfOk, IfNone};
ghost use Rattle.std.specs.Option.{option_copied, option_to_list};
ghost use Rattle.record_merge.specs.Logs.{AreLogs, IsMerged};
ghost use Rattle.record_merge.specs.Mix.{is_earlier, mix, placed, merged_from};

use crate::logged::{Log, Logs, Merged, MergedStep};
use mur_base::Memory;
use std::alloc::Global;

/// Merges the logs of all nodes, if stamps rise in each log: by stamp, and among equal stamps by the node's place. Each step is
/// moved at most as often as there are logs, and no input is copied.
pub fn merge<I: Drop>(alloc: Global, logs: Logs<I>) -> Result<Merged<I>, Memory>
    ensures { AreLogs logs → IfOk result (IsMerged logs) }
{
    mixed_all(alloc, logs)
}

/// Mixes one log after the other into the steps so far.
fn mixed_all<I: Drop>(alloc: Global, logs: Logs<I>) -> Result<Merged<I>, Memory>
    ensures { IfOk result (λ steps. steps ≡ merged_from 0 [] logs) }
{
    let count = logs.len();
    let mut steps = Merged::new(alloc);
    // There are no more places than logs, so the place fits.
    let mut place = 0;
    for log in logs.into_vec() {
        steps = mixed(alloc, steps, placed(alloc, place, log)?)?;
        place += 1;
    }
    Ok(steps)
}

/// The steps of the node at a place.
fn placed<I: Drop>(alloc: Global, node: usize, log: Log<I>) -> Result<Merged<I>, Memory>
    ensures { IfOk result (λ steps. steps ≡ placed node log) }
{
    let mut steps = Merged::new(alloc);
    for entry in log.into_vec() {
        steps.push(MergedStep { node, entry })?;
    }
    Ok(steps)
}

/// Two lists of steps, mixed by stamp; of equal stamps the first list's come first.
fn mixed<I: Drop>(alloc: Global, first: Merged<I>, others: Merged<I>) -> Result<Merged<I>, Memory>
    ensures { IfOk result (λ steps. steps ≡ mix first others) }
{
    let mut first = first;
    let mut others = others;
    let mut steps = Merged::new(alloc);
    while let Some(step) = next(&mut first, &mut others) {
        steps.push(step)?;
    }
    Ok(steps)
}

/// Takes out the next step of two lists.
fn next<I>(first: &mut Merged<I>, others: &mut Merged<I>) -> Option<MergedStep<I>>
    ensures rest { mix first.old others.old ≡ option_to_list result ++ mix first.new others.new }
    ensures fewer { length (option_to_list result) + (length first.new + length others.new) ≡ length first.old + length others.old }
    ensures none { IfNone result (mix first.new others.new ≡ []) }
{
    if is_earlier(others.first(), first.first()) {
        others.pop()
    } else {
        first.pop()
    }
}

/// Whether the other list's next step comes before the first list's.
fn is_earlier<I>(other: Option<&MergedStep<I>>, first: Option<&MergedStep<I>>) -> bool
    ensures { result ≡ is_earlier (option_copied other.entry) (option_copied first.entry) }
{
    match other {
        None => false,
        Some(other) => match first {
            None => true,
            Some(first) => other.entry.stamp < first.entry.stamp,
        },
    }
}
