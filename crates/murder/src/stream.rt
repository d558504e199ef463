// A reader and a writer of std as a source and a sink. To those who hold a host they tell no bytes, since a file may come to
// tell later what it didn't tell at first; what they do with their reader or writer is in their own clauses.
ghost use Rattle.std.specs.Prelude.{◌≡◌, ◌<◌, length, IfOk};
ghost use Rattle.std.specs.Io.{ReadsAtMost, WritesAtMost};
ghost use Rattle.std.specs.Io.KnownBytes.{ReadConsumes, WriteAppends};
ghost use Rattle.mur_edge.specs.Source.{DidRead};
ghost use Rattle.mur_edge.specs.Sink.{DidWrite};
ghost use Rattle.murder.specs.Host.{read_facts, write_facts};

use mur_base::Memory;
use mur_edge::{Failed, Room, Sink, Source, Used};
use std::alloc::Global;
use std::io::{Read, Write};

/// What a source counted when it came back.
#[derive(Clone, Copy)]
pub struct ReadCounts {
    /// Reads that failed.
    pub faults: u64,
    /// Reads that gave something, and less than there was room for.
    pub shorts: u64,
}

/// What a sink counted when it came back.
#[derive(Clone, Copy)]
pub struct WriteCounts {
    /// Writes that failed; so did one that took nothing, where there was something.
    pub faults: u64,
}

/// What is kept of an object that came back.
pub type StreamUsed = Used<ReadCounts, WriteCounts>;

/// A reader as a source.
#[derive(Drop)]
pub struct ReadStream<R> {
    pub counts: ReadCounts,
    pub reader: R,
    pub room: Room<StreamUsed>,
}

/// A writer as a sink.
#[derive(Drop)]
pub struct WriteStream<W> {
    pub counts: WriteCounts,
    pub writer: W,
    pub room: Room<StreamUsed>,
}

impl<R: Read + Drop> ReadStream<R> {
    /// A source of which nothing was read so far.
    pub fn new(alloc: Global, reader: R) -> Result<ReadStream<R>, Memory>
        ensures counts { IfOk result (λ source. source.counts ≡ record { faults = 0; shorts = 0 }) }
        ensures reader { IfOk result (λ source. source.reader ≡ reader) }
    {
        Ok(ReadStream {
            counts: ReadCounts {
                faults: 0,
                shorts: 0,
            },
            reader,
            room: Room::new(alloc)?,
        })
    }
}

impl<W: Write + Drop> WriteStream<W> {
    /// A sink to which nothing was written so far.
    pub fn new(alloc: Global, writer: W) -> Result<WriteStream<W>, Memory>
        ensures counts { IfOk result (λ sink. sink.counts ≡ record { faults = 0 }) }
        ensures writer { IfOk result (λ sink. sink.writer ≡ writer) }
    {
        Ok(WriteStream {
            counts: WriteCounts { faults: 0 },
            writer,
            room: Room::new(alloc)?,
        })
    }
}

impl<R: Read + Drop> Source for ReadStream<R> {
    ghost facts = { λ source. read_facts source.counts };

    fn read(&mut self, buf: &mut [u8]) -> Result<usize, Failed>
        ensures bound { ReadsAtMost result buf.new }
        ensures did { DidRead (read_facts self.old.counts) (read_facts self.new.counts) result buf.new }

        // The bytes are those that the reader gave, and no others were taken from it.
        ensures reader { ReadConsumes (R.remaining self.old.reader) (R.remaining self.new.reader) result buf.new }
    {
        match self.reader.read(buf) {
            Ok(n) => {
                if 0 < n && n < buf.len() {
                    self.counts.shorts = self.counts.shorts.saturating_add(1);
                }
                Ok(n)
            }
            Err(_) => {
                self.counts.faults = self.counts.faults.saturating_add(1);
                Err(Failed)
            }
        }
    }
}

impl<W: Write + Drop> Sink for WriteStream<W> {
    ghost facts = { λ sink. write_facts sink.counts };

    fn write(&mut self, piece: &[u8]) -> Result<usize, Failed>
        ensures bound { WritesAtMost result piece.now }
        ensures some { IfOk result (λ n. 0 < length piece.now → 0 < n) }
        ensures did { DidWrite (write_facts self.old.counts) (write_facts self.new.counts) result piece.now }

        // The writer took just the bytes that are told as taken.
        ensures writer { WriteAppends (W.contents self.old.writer) (W.contents self.new.writer) result piece.now }
    {
        match self.writer.write(piece) {
            Ok(n) if 0 < n || piece.is_empty() => Ok(n),
            _ => {
                self.counts.faults = self.counts.faults.saturating_add(1);
                Err(Failed)
            }
        }
    }
}
