//! `murder replay CONFIG SCHEDULE` runs the schedule on the cluster of the configuration and writes what clients were
//! given and the history. `murder drill NUMBER SIZE` runs a schedule that it makes, and writes a line of counts. Here stands the process: its
//! files, its outputs and its words.
#![tactic(auto)]

mod host;
mod stream;

use crate::host::SystemHost;
use mur_base::Memory;
use std::env;
use std::io::ErrorKind;
use std::process::ExitCode;
use top_call::{Status, murder, tell};

// The words behind the program's name. Where one of them isn't text, there are none.
fn given_words(rt: &HostRuntime) -> Result<Vec<String>, Memory> {
    match env::args(rt) {
        Ok(args) => Ok(args.skip(1).collect(rt.alloc())?),
        Err(error) if error.kind() == ErrorKind::OutOfMemory => Err(Memory),
        Err(_) => Ok(Vec::new(rt.alloc())),
    }
}

fn main(rt: HostRuntime) -> ExitCode {
    let (output, error_output) = (rt.stdout(), rt.stderr());
    let mut host = SystemHost::new(rt.alloc(), &rt, &output, &error_output);
    let status = match given_words(&rt) {
        Ok(words) => murder(rt.alloc(), &mut host, &words),
        Err(Memory) => {
            tell(rt.alloc(), &mut host, &Status::Memory);
            Status::Memory
        }
    };
    ExitCode::from(status.code())
}
