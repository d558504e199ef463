// The messages that are searched.
use super::load::Load;
use super::message::message;
use crate::fault::Fault;
use crate::times::Work;
use mail_message::{Keys, Summaries, Uids};
use mail_search::search;
use std::alloc::Global;

/// How many messages are searched.
pub const MESSAGES: u32 = 20_000;

/// Messages of rising numbers and UIDs, and the keys of a load.
#[derive(Drop)]
pub struct Searching {
    alloc: Global,
    load: Load,
    messages: Summaries,
    numbers: Uids,
    keys: Keys,
}

impl Searching {
    pub fn new(alloc: Global, load: Load) -> Searching {
        Searching {
            alloc,
            load,
            messages: Summaries::new(alloc),
            numbers: Uids::new(alloc),
            keys: Keys::new(alloc),
        }
    }
}

impl Work for Searching {
    fn prepare(&mut self) -> Result<(), Fault> {
        for uid in 1..=MESSAGES {
            self.messages
                .push(message(self.alloc, uid)?.summary(self.alloc)?)?;
            self.numbers.push(uid)?;
        }
        self.keys.push(self.load.key(self.alloc)?)?;
        Ok(())
    }

    /// Searches, and gives how many messages were found.
    fn done(&mut self) -> Result<u64, Fault> {
        if self.numbers.len() != self.messages.len() {
            return Err(Fault::Missing);
        }
        let found = search(self.alloc, &self.keys, &self.messages, &self.numbers)?;
        Ok(found.len() as u64)
    }

    /// Passes plainly over the messages: a sum of the UIDs of those that are flagged.
    fn plain(&mut self, _done: u64) -> Result<u64, Fault> {
        let mut sum: u64 = 0;
        for message in self.messages.as_slice() {
            if message.flags.system().flagged {
                sum = sum.wrapping_add(u64::from(message.uid));
            }
        }
        Ok(sum)
    }
}
