// An entry of a backend's disk.
use crate::fault::Fault;
use crate::making::{Filled, read_date};
use crate::times::Work;
use mail_message::{FlagSet, Message, Messages};
use mur_base::limits::MESSAGE_LIMIT;
use mur_base::{Bytes, mail_name};
use node_record::{BackendRecord, decode_backend, encode_backend};
use std::alloc::Global;

/// How often a round decodes the entry.
const TIMES: u32 = 10;

const BODY: Filled = Filled {
    front: b"",
    text: b"x",
    count: MESSAGE_LIMIT,
    back: b"",
};

/// The entry of an APPEND of 1 MiB.
#[derive(Drop)]
pub struct Decoding {
    alloc: Global,
    entry: Bytes,
}

impl Decoding {
    pub fn new(alloc: Global) -> Decoding {
        Decoding {
            alloc,
            entry: Bytes::new(alloc),
        }
    }
}

/// A message with a body of 1 MiB.
fn message(alloc: Global) -> Result<Message, Fault> {
    let mut body = Vec::new(alloc);
    BODY.put(&mut body)?;
    Ok(Message {
        uid: 1,
        flags: FlagSet::new(alloc),
        date: read_date(b"17-Jul-1996 02:44:25 -0700")?,
        body: Bytes::from_vec(body),
    })
}

impl Work for Decoding {
    fn prepare(&mut self) -> Result<(), Fault> {
        let Ok(name) = mail_name(self.alloc, b"user.bob") else {
            return Err(Fault::Missing);
        };
        let mut messages = Messages::new(self.alloc);
        messages.push(message(self.alloc)?)?;
        self.entry = encode_backend(self.alloc, &BackendRecord::Added(name, messages))?;
        Ok(())
    }

    fn done(&mut self) -> Result<u64, Fault> {
        let mut entries: u64 = 0;
        for _ in 0..TIMES {
            let is_read = decode_backend(self.alloc, self.entry.as_slice()).is_ok();
            entries = entries.wrapping_add(u64::from(is_read));
        }
        Ok(entries)
    }

    fn plain(&mut self, _done: u64) -> Result<u64, Fault> {
        let mut copies: u64 = 0;
        for _ in 0..TIMES {
            let copy = Vec::from_slice(self.alloc, self.entry.as_slice())?;
            copies = copies.wrapping_add(u64::from(!copy.is_empty()));
        }
        Ok(copies)
    }
}
