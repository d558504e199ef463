// The top call.
ghost use Rattle.std.specs.Prelude.{◌≡◌, Some, map, string_bytes};
ghost use Rattle.mur_config.specs.Words.{job_of, HasDrillSize};
ghost use Rattle.top_call.specs.Status.{line_of, CountsStatus, CountsEnd};
ghost use Rattle.top_call.specs.TopCall.{DidWords, DidTell, DidTopCall};

use crate::drill::drill;
use crate::replay::replay;
use crate::status::Status;
use mur_base::Memory;
use mur_config::{Job, read_words};
use mur_edge::{Host, Used, write_all};
use std::alloc::Global;

/// Does what the words say, and tells on the error output how it ended unless all was done. Every object that the host
/// gave goes back, whatever comes.
///
/// The tests come in this order: words, configuration read, configuration, schedule read, schedule, run, write. A drill has no files.
pub fn murder<H: Host>(alloc: Global, host: &mut H, words: &Vec<String>) -> Status
    ensures did { DidTopCall (map string_bytes words.now.items) (H.facts host.old) (H.facts host.new) result }
    ensures counts { CountsEnd result (H.facts host.old).faults (H.facts host.new).faults }
    ensures held { (H.facts host.new).held ≡ (H.facts host.old).held }
{
    let status = work(alloc, host, words);
    tell(alloc, host, &status);
    status
}

fn work<H: Host>(alloc: Global, host: &mut H, words: &Vec<String>) -> Status
    ensures did { DidWords (job_of (map string_bytes words.now.items)) (H.facts host.old) (H.facts host.new) result }
    ensures counts { CountsStatus result (H.facts host.old).faults (H.facts host.new).faults }
{
    match read_words(alloc, words) {
        Ok(Some(job)) => carry_out(alloc, host, &job),
        Ok(None) => Status::Words,
        Err(Memory) => Status::Memory,
    }
}

fn carry_out<H: Host>(alloc: Global, host: &mut H, job: &Job) -> Status
    requires { HasDrillSize (Some job.now) }
    ensures did { DidWords (Some job.now) (H.facts host.old) (H.facts host.new) result }
    ensures counts { CountsStatus result (H.facts host.old).faults (H.facts host.new).faults }
{
    match job {
        Job::Replay(config, schedule) => {
            replay(alloc, host, config.as_slice(), schedule.as_slice())
        }
        Job::Drill(number, size) => drill(alloc, host, *number, *size),
    }
}

/// Tells on the error output how a call ended, unless all was done. A fault there changes nothing.
pub fn tell<H: Host>(alloc: Global, host: &mut H, status: &Status)
    ensures { DidTell (line_of status.now) (H.facts host.old) (H.facts host.new) }
{
    if let Some(line) = status.line(alloc) {
        write_line(host, line.as_bytes());
    }
}

// Writes a line to the error output.
fn write_line<H: Host>(host: &mut H, line: &[u8])
    ensures { DidTell (Some line.now) (H.facts host.old) (H.facts host.new) }
{
    let Ok(mut errors) = host.errors() else {
        return;
    };
    let _ = write_all(&mut errors, line);
    host.back(Used::Errors(errors));
}
