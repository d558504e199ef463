// Cases whose fields are steps, taken one after another.
use crate::fault::Fault;
use mur_base::Bytes;
use std::alloc::Global;

/// What the steps of a case change.
pub trait Steps {
    /// Takes a step, and prints what comes of it.
    fn take_step(&mut self, alloc: Global, step: &str, out: &mut Bytes) -> Result<(), Fault>;
}

/// Takes steps, and prints a field for each: `-` for one that prints nothing.
pub fn put_steps<S: Steps>(
    alloc: Global,
    state: &mut S,
    steps: &[&str],
    out: &mut Bytes,
) -> Result<(), Fault> {
    for step in steps {
        put_step(alloc, state, step, out)?;
    }
    Ok(())
}

fn put_step<S: Steps>(
    alloc: Global,
    state: &mut S,
    step: &str,
    out: &mut Bytes,
) -> Result<(), Fault> {
    if !out.is_empty() {
        out.extend_from_slice(b" | ")?;
    }
    let before = out.len();
    state.take_step(alloc, step, out)?;
    if out.len() == before {
        out.push(b'-')?;
    }
    Ok(())
}
