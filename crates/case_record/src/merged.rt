// Logs of nodes, merged into one order of steps.
use case_base::{Fault, put_field, wide_number_of};
use mur_base::{Bytes, Memory, put_number};
use record_merge::{Log, Logged, Logs, MergedStep, merge};
use std::alloc::Global;

/// Puts the steps of some logs in their one order.
pub fn put(alloc: Global, logs: &[&str], out: &mut Bytes) -> Result<(), Fault> {
    let mut merged = merge(alloc, logs_of(alloc, logs)?)?;
    for _ in 0..merged.len() {
        if let Some(step) = merged.pop() {
            put_step(&step, out)?;
        }
    }
    Ok(())
}

fn logs_of(alloc: Global, fields: &[&str]) -> Result<Logs<Bytes>, Fault> {
    let mut logs = Logs::new(alloc);
    for field in fields {
        logs.push(log_of(alloc, field)?)?;
    }
    Ok(logs)
}

/// The log that a field writes: `STAMP HEARD INPUT`, a comma between two.
fn log_of(alloc: Global, field: &str) -> Result<Log<Bytes>, Fault> {
    let mut log = Log::new(alloc);
    if !field.is_empty() {
        for step in field.split(", ") {
            log.push(logged(alloc, step)?)?;
        }
    }
    Ok(log)
}

fn logged(alloc: Global, step: &str) -> Result<Logged<Bytes>, Fault> {
    let Some((stamp, rest)) = step.split_once(' ') else {
        return Err(Fault::Unreadable("no step"));
    };
    let (heard, input) = rest.split_once(' ').unwrap_or((rest, ""));
    Ok(Logged {
        stamp: wide_number_of(stamp)?,
        heard: wide_number_of(heard)?,
        input: Bytes::from_slice(alloc, input.as_bytes())?,
    })
}

/// Puts the place of a step's log, and the step.
fn put_step(step: &MergedStep<Bytes>, out: &mut Bytes) -> Result<(), Memory> {
    put_field(b"", out)?;
    put_number(step.node as u64, out)?;
    out.extend_from_slice(b": ")?;
    put_number(step.entry.stamp, out)?;
    out.push(b' ')?;
    put_number(step.entry.heard, out)?;
    out.push(b' ')?;
    out.extend_from_slice(step.entry.input.as_slice())
}
