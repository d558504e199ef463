// Files of cases, each of which has to pass.
use crate::fault::Fault;
use crate::field::parts_of;
use anyhow::{Result, anyhow};
use mur_base::Bytes;
use std::alloc::Global;
use std::{env, fs, str};

/// What cases are of.
pub trait Cases {
    /// Prints the text that a call gives for the fields of a case, of which the first is its kind.
    fn put(&self, alloc: Global, fields: &[&str], out: &mut Bytes) -> Result<(), Fault>;
}

/// Reads each file that the program's words name, and prints how many of its cases passed. The first case that doesn't pass is the error,
/// and so is a file without a case. If the words name no file, the error is how the program is called.
pub fn tell_all<C: Cases>(rt: &HostRuntime, cases: &C, usage: &'static str) -> Result<()> {
    let mut told = false;
    for file in env::args(rt)?.skip(1) {
        tell(rt, cases, file.as_str())?;
        told = true;
    }
    if told {
        Ok(())
    } else {
        Err(anyhow!("{usage}"))
    }
}

fn tell<C: Cases>(rt: &HostRuntime, cases: &C, file: &str) -> Result<()> {
    let text = fs::read_to_string(rt, file)?;
    let passed = passed(rt.alloc(), cases, file, text.as_str())?;
    if passed == 0 {
        return Err(anyhow!("{file}: no case"));
    }
    println!(rt; "{file}: {passed} cases passed")?;
    Ok(())
}

/// How many cases a text has, each of which passes.
fn passed<C: Cases>(alloc: Global, cases: &C, file: &str, text: &str) -> Result<u64> {
    let mut passed: u64 = 0;
    for line in text.lines() {
        if !line.is_empty() && !line.starts_with('#') {
            pass(alloc, cases, file, line)?;
            passed = passed.wrapping_add(1);
        }
    }
    Ok(passed)
}

fn pass<C: Cases>(alloc: Global, cases: &C, file: &str, line: &str) -> Result<()> {
    let mut found = Bytes::new(alloc);
    match compare(alloc, cases, line, &mut found) {
        Ok(()) => Ok(()),
        Err(fault) => {
            let why = fault.text();
            let found = str::from_utf8(found.as_slice()).unwrap_or("no text");
            Err(anyhow!("{file}: {why}: {found}\nin {line}"))
        }
    }
}

/// Compares the text that comes of a case with the one that it wants.
fn compare<C: Cases>(alloc: Global, cases: &C, line: &str, found: &mut Bytes) -> Result<(), Fault> {
    let Some((given, wanted)) = line.split_once(" => ") else {
        return Err(Fault::Unreadable("nothing is wanted"));
    };
    cases.put(alloc, parts_of(alloc, given, " | ")?.as_slice(), found)?;
    if found.is_empty() {
        found.push(b'-')?;
    }
    if found.as_slice() == wanted.as_bytes() {
        Ok(())
    } else {
        Err(Fault::Differs)
    }
}
