// Lines with literals of the greatest length.
use crate::fault::Fault;
use crate::making::Filled;
use crate::times::Work;
use memchr::memchr;
use mupdate_codec::{Cutter, MCommand, Tag, print_command, read_command};
use mur_base::{Bytes, Memory};
use std::alloc::Global;

/// How often a round takes the line.
const TIMES: u32 = 100;

const LINE: Filled = Filled {
    front: b"a1 ACTIVATE \"user.bob\" \"b1!p\" {65536+}\r\n",
    text: b"x",
    count: 65_536,
    back: b"\r\n",
};

/// Copies bytes so many times, and searches them each time for a byte that they don't have. The byte changes, so that no search
/// stands for the next.
fn copied(alloc: Global, bytes: &[u8]) -> Result<u64, Memory> {
    let mut found: u64 = 0;
    for time in 0..TIMES {
        let copy = Vec::from_slice(alloc, bytes)?;
        let absent = if time % 2 == 0 { 0 } else { 1 };
        let lacks = memchr(absent, copy.as_slice()).is_none();
        found = found.wrapping_add(u64::from(lacks));
    }
    Ok(found)
}

/// The line, cut out of a connection's bytes.
#[derive(Drop)]
pub struct Cutting {
    alloc: Global,
    cutter: Cutter,
    line: Vec<u8>,
}

impl Cutting {
    pub fn new(alloc: Global) -> Cutting {
        Cutting {
            alloc,
            cutter: Cutter::new(alloc),
            line: Vec::new(alloc),
        }
    }
}

impl Work for Cutting {
    fn prepare(&mut self) -> Result<(), Fault> {
        Ok(LINE.put(&mut self.line)?)
    }

    fn done(&mut self) -> Result<u64, Fault> {
        let mut lines: u64 = 0;
        for _ in 0..TIMES {
            let (line, _) = self.cutter.feed(self.line.as_slice())?;
            lines = lines.wrapping_add(u64::from(line.is_some()));
        }
        Ok(lines)
    }

    fn plain(&mut self, _done: u64) -> Result<u64, Fault> {
        Ok(copied(self.alloc, self.line.as_slice())?)
    }
}

/// The line, read.
#[derive(Drop)]
pub struct Reading {
    alloc: Global,
    line: Vec<u8>,
}

impl Reading {
    pub fn new(alloc: Global) -> Reading {
        Reading {
            alloc,
            line: Vec::new(alloc),
        }
    }
}

impl Work for Reading {
    fn prepare(&mut self) -> Result<(), Fault> {
        Ok(LINE.put(&mut self.line)?)
    }

    fn done(&mut self) -> Result<u64, Fault> {
        let mut lines: u64 = 0;
        for _ in 0..TIMES {
            let is_read = read_command(self.alloc, self.line.as_slice()).is_ok();
            lines = lines.wrapping_add(u64::from(is_read));
        }
        Ok(lines)
    }

    fn plain(&mut self, _done: u64) -> Result<u64, Fault> {
        Ok(copied(self.alloc, self.line.as_slice())?)
    }
}

/// The command of the line, printed.
#[derive(Drop)]
pub struct Printing {
    alloc: Global,
    line: Vec<u8>,
    command: Option<(Tag, MCommand)>,
}

impl Printing {
    pub fn new(alloc: Global) -> Printing {
        Printing {
            alloc,
            line: Vec::new(alloc),
            command: None,
        }
    }
}

impl Work for Printing {
    fn prepare(&mut self) -> Result<(), Fault> {
        LINE.put(&mut self.line)?;
        match read_command(self.alloc, self.line.as_slice()) {
            Ok((tag, command, _)) => self.command = Some((tag, command)),
            Err(_) => return Err(Fault::Missing),
        }
        Ok(())
    }

    fn done(&mut self) -> Result<u64, Fault> {
        let Some((tag, command)) = &self.command else {
            return Err(Fault::Missing);
        };
        let mut lines: u64 = 0;
        for _ in 0..TIMES {
            let line: Bytes = print_command(self.alloc, tag, command)?;
            lines = lines.wrapping_add(u64::from(!line.is_empty()));
        }
        Ok(lines)
    }

    fn plain(&mut self, _done: u64) -> Result<u64, Fault> {
        Ok(copied(self.alloc, self.line.as_slice())?)
    }
}
