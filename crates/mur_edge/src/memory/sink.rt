// A sink in memory, whose failing writes are given by number.
ghost use Rattle.std.specs.Prelude.{◌≡◌, ◌<◌, [], length, IfOk, IsErr, true};
ghost use Rattle.std.specs.Io.{WritesAtMost};
ghost use Rattle.mur_base.specs.Counts.{one_more};
ghost use Rattle.mur_edge.specs.Sink.{DidWrite};
ghost use Rattle.mur_edge.specs.Memory.{fails_at, sink_facts};

use super::host::MemUsed;
use super::source::{Calls, is_failing};
use crate::fault::Failed;
use crate::returned::Room;
use crate::sink::Sink;
use mur_base::{Bytes, Memory};
use std::alloc::Global;

// The room that a sink has from the start: a short text takes no memory as it is written.
const ROOM: usize = 65_536;

/// What a sink in memory holds: the bytes that it took, and its counts.
#[derive(Drop)]
pub struct SinkState {
    pub taken: Bytes,
    pub faults: u64,
    pub calls: u64,
    pub failing: Calls,
}

/// A sink in memory. A write takes the whole piece.
#[derive(Drop)]
pub struct MemSink {
    pub state: SinkState,
    room: Room<MemUsed>,
}

/// A sink, of whose writes the numbered ones fail. A write for which there is no memory is counted as a failure too.
pub fn mem_sink(alloc: Global, failing: Calls) -> Result<MemSink, Memory>
    ensures { IfOk result (λ sink. sink.state ≡ record { taken = []; faults = 0; calls = 0; failing = failing }) }
{
    let room = Room::new(alloc)?;
    let taken = Vec::with_capacity(alloc, ROOM)?;
    Ok(MemSink {
        state: SinkState {
            taken: Bytes::from_vec(taken),
            faults: 0,
            calls: 0,
            failing,
        },
        room,
    })
}

impl MemSink {
    pub(super) fn into_parts(self) -> (SinkState, Room<MemUsed>)
        ensures { result.0 ≡ self.state }
    {
        (self.state, self.room)
    }

    // The numbers of its writes that fail.
    pub(super) fn into_failing(self) -> Calls
        ensures { result ≡ self.state.failing }
    {
        self.state.failing
    }
}

impl Sink for MemSink {
    ghost facts = { λ sink. sink_facts sink.state };

    fn write(&mut self, piece: &[u8]) -> Result<usize, Failed>
        ensures bound { WritesAtMost result piece.now }
        ensures some { IfOk result (λ n. 0 < length piece.now → 0 < n) }
        ensures did { DidWrite (sink_facts self.old.state) (sink_facts self.new.state) result piece.now }

        // The numbered calls fail, and the others take the whole piece if there is memory for it.
        ensures fails { fails_at self.old.state.failing self.old.state.calls ≡ true → IsErr result }
        ensures counted { self.new.state.calls ≡ one_more self.old.state.calls }
        ensures numbers { self.new.state.failing ≡ self.old.state.failing }
        ensures count { IfOk result (λ n. n ≡ length piece.now) }
    {
        let fails = is_failing(&self.state.failing, self.state.calls);
        self.state.calls = self.state.calls.saturating_add(1);
        if fails || self.state.taken.extend_from_slice(piece).is_err() {
            self.state.faults = self.state.faults.saturating_add(1);
            return Err(Failed);
        }
        Ok(piece.len())
    }
}
