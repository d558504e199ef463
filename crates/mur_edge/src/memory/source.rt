// A source in memory, whose failing reads are given by number.
ghost use Rattle.std.specs.Prelude.{◌≡◌, ◌+◌, ◌<◌, ◌^◌, length, take, drop, min, IfOk, is_err};
ghost use Rattle.std.specs.Io.{ReadsAtMost};
ghost use Rattle.mur_base.specs.Counts.{one_more};
ghost use Rattle.mur_edge.specs.Source.{DidRead};
ghost use Rattle.mur_edge.specs.Memory.{fails_at, source_facts};

use super::host::MemUsed;
use crate::fault::Failed;
use crate::returned::Room;
use crate::source::Source;
use mur_base::{Bytes, Items, Memory};
use std::alloc::Global;

/// The numbers of the calls of an object that fail, counted from 0.
pub type Calls = Items<u64>;

pub(crate) fn is_failing(failing: &Calls, call: u64) -> bool
    ensures { result ≡ fails_at failing.now call }
{
    failing.as_slice().contains(&call)
}

/// What a source in memory holds: its bytes, how far they are read, and its counts.
#[derive(Drop)]
pub struct SourceState {
    pub whole: Bytes,
    pub at: usize,
    pub faults: u64,
    pub shorts: u64,
    pub calls: u64,
    pub failing: Calls,
}

/// A source in memory. A read gives as many bytes as fit, or as are left.
#[derive(Drop)]
pub struct MemSource {
    pub state: SourceState,
    room: Room<MemUsed>,
}

/// A source of these bytes, of whose reads the numbered ones fail. With no number none fails.
pub fn mem_source(alloc: Global, bytes: Bytes, failing: Calls) -> Result<MemSource, Memory>
    ensures { IfOk result (λ source. source.state ≡ record { whole = bytes; at = 0; faults = 0; shorts = 0; calls = 0; failing = failing }) }
{
    let room = Room::new(alloc)?;
    Ok(MemSource {
        state: SourceState {
            whole: bytes,
            at: 0,
            faults: 0,
            shorts: 0,
            calls: 0,
            failing,
        },
        room,
    })
}

impl MemSource {
    pub(super) fn into_parts(self) -> (SourceState, Room<MemUsed>)
        ensures { result.0 ≡ self.state }
    {
        (self.state, self.room)
    }
}

impl SourceState {
    // The bytes that are not read yet.
    fn rest(&self) -> &[u8]
        ensures bytes { result.now ≡ drop self.now.at self.now.whole }
        ensures bound { self.now.at + length result.now < 2 ^ 64 }
    {
        let bytes = self.whole.as_slice();
        if self.at < bytes.len() {
            &bytes[self.at..]
        } else {
            &[]
        }
    }
}

// Puts as many of the bytes into the front of the buffer as fit, and says how many.
fn fill(buf: &mut [u8], bytes: &[u8]) -> usize
    ensures count { result ≡ min (length buf.new) (length bytes.now) }
    ensures bytes { take result buf.new ≡ take result bytes.now }
{
    let n = buf.len().min(bytes.len());
    buf[..n].copy_from_slice(&bytes[..n]);
    n
}

impl Source for MemSource {
    ghost facts = { λ source. source_facts source.state };

    fn read(&mut self, buf: &mut [u8]) -> Result<usize, Failed>
        ensures bound { ReadsAtMost result buf.new }
        ensures did { DidRead (source_facts self.old.state) (source_facts self.new.state) result buf.new }

        // Exactly the numbered calls fail, and the others give as much as fits.
        ensures fails { is_err result ≡ fails_at self.old.state.failing self.old.state.calls }
        ensures counted { self.new.state.calls ≡ one_more self.old.state.calls }
        ensures numbers { self.new.state.failing ≡ self.old.state.failing }
        ensures count { IfOk result (λ n. n ≡ min (length buf.new) (length (drop self.old.state.at self.old.state.whole))) }
    {
        let fails = is_failing(&self.state.failing, self.state.calls);
        self.state.calls = self.state.calls.saturating_add(1);
        if fails {
            self.state.faults = self.state.faults.saturating_add(1);
            return Err(Failed);
        }
        let n = fill(buf, self.state.rest());
        self.state.at += n;
        if 0 < n && n < buf.len() {
            self.state.shorts = self.state.shorts.saturating_add(1);
        }
        Ok(n)
    }
}
