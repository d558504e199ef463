// The message that is fetched.
use crate::fault::Fault;
use crate::times::Work;
use mail_fetch::part;
use mail_message::{DateText, FlagSet, Item, Message};
use mur_base::Bytes;
use std::alloc::Global;

/// Bytes of its body.
const BODY_LENGTH: usize = 1_048_576;

/// A message of 1 MiB.
#[derive(Drop)]
pub struct Fetching {
    alloc: Global,
    message: Message,
}

impl Fetching {
    /// Before it has its body.
    pub fn new(alloc: Global, date: DateText) -> Fetching {
        Fetching {
            alloc,
            message: Message {
                uid: 1,
                flags: FlagSet::new(alloc),
                date,
                body: Bytes::new(alloc),
            },
        }
    }
}

impl Work for Fetching {
    fn prepare(&mut self) -> Result<(), Fault> {
        for _ in 0..BODY_LENGTH {
            self.message.body.push(b'x')?;
        }
        Ok(())
    }

    /// Fetches the body, and gives how many bytes the item has.
    fn done(&mut self) -> Result<u64, Fault> {
        Ok(part(self.alloc, &Item::BodyPeek(None), &self.message)?.len() as u64)
    }

    /// Copies the body, and gives how many bytes it has.
    fn plain(&mut self, _done: u64) -> Result<u64, Fault> {
        Ok(Bytes::from_slice(self.alloc, self.message.body.as_slice())?.len() as u64)
    }
}
