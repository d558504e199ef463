// Short lines.
use crate::fault::Fault;
use crate::times::Work;
use imap_command::read;
use mupdate_codec::read_command;
use std::alloc::Global;

/// How often a round reads each line.
const TIMES: u32 = 10_000;

/// A FIND, and beside it a SELECT of INBOX.
#[derive(Drop)]
pub struct Finding {
    pub alloc: Global,
}

/// Lets a result of any kind go, which costs the prover less than to let a command go where it is read.
fn is_value<T: Drop, E: Drop>(outcome: Result<T, E>) -> bool {
    outcome.is_ok()
}

impl Work for Finding {
    fn prepare(&mut self) -> Result<(), Fault> {
        Ok(())
    }

    fn done(&mut self) -> Result<u64, Fault> {
        let mut lines: u64 = 0;
        for _ in 0..TIMES {
            let is_read = is_value(read_command(self.alloc, b"a1 FIND \"user.bob\"\r\n"));
            lines = lines.wrapping_add(u64::from(is_read));
        }
        Ok(lines)
    }

    fn plain(&mut self, _done: u64) -> Result<u64, Fault> {
        let mut frames: u64 = 0;
        for _ in 0..TIMES {
            let is_read = is_value(read(self.alloc, b"a1 SELECT INBOX\r\n"));
            frames = frames.wrapping_add(u64::from(is_read));
        }
        Ok(frames)
    }
}
