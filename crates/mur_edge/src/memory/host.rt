// A host in memory. It keeps the objects that it was made with and hands out fresh copies of them.
ghost use Rattle.std.specs.Prelude.{◌≡◌, ◌<◌, ◌∷◌, ◌++◌, ◌||◌, [], true, false, None, Some, Err, map, replicate, length, IfOk};
ghost use Rattle.std.specs.Prelude.{OnOk, IfSome, IsSomeAnd, slice_set};
ghost use Rattle.mur_base.specs.Counts.{one_more};
ghost use Rattle.mur_edge.specs.Counts.{SourceFault};
ghost use Rattle.mur_edge.specs.Source.{IsFreshSource, HasContent};
ghost use Rattle.mur_edge.specs.Sink.{IsFreshSink};
ghost use Rattle.mur_edge.specs.Returned.{chain_entries};
ghost use Rattle.mur_edge.specs.Host.{DidAsk, TakesBack, last_output, last_errors};
ghost use Rattle.mur_edge.specs.Memory.{fails_at, place_named, free_place, content_named, source_facts, sink_facts, memory_came, object_came, IsFreshCopy};
ghost use Rattle.mur_edge.specs.Memory.{freed, sources_out_after, output_out_after, errors_out_after};
ghost use Rattle.mur_edge.specs.declared.fault.HostFault.TheVariants.{Failed as failed};
ghost use Rattle.mur_edge.specs.declared.host.Asked.TheVariants.{Source as source_asked, Out as out_asked, Errors as errors_asked};
ghost use Rattle.mur_edge.specs.declared.host.Used.TheVariants.{Source as source_used};

use super::sink::{MemSink, SinkState, mem_sink};
use super::source::{Calls, MemSource, SourceState, is_failing, mem_source};
use crate::asks::Asks;
use crate::fault::{Faults, HostFault};
use crate::host::{Asked, Host, Used};
use crate::returned::{Chain, Returned};
use mur_base::{Bytes, Items, Memory};
use std::alloc::Global;

/// An object of a host in memory that came back.
pub type MemUsed = Used<SourceState, SinkState>;

/// The sources of a host by their names. Where a name stands twice the first counts.
pub type MemSources = Items<(Bytes, MemSource)>;

/// A host in memory: its sources by name, its output and its error output, each handed out as it was at the start.
#[derive(Drop)]
pub struct MemHost {
    alloc: Global,
    pub sources: MemSources,
    pub sources_out: Vec<bool>,
    pub out: Lent,
    pub errors: Lent,
    pub calls: u64,
    pub failing: Calls,
    pub faults: Faults,
    pub asks: Asks,
    pub returned: Returned<MemUsed>,
}

/// A sink that a host hands out: the numbers of its failing writes, and whether it is out.
#[derive(Drop)]
pub struct Lent {
    pub failing: Calls,
    pub is_out: bool,
}

/// A host with these objects, of whose calls the numbered ones fail; [`Host::back`] isn't counted.
pub fn mem_host(
    alloc: Global,
    sources: MemSources,
    out: MemSink,
    errors: MemSink,
    failing: Calls,
) -> Result<MemHost, Memory>
    ensures sources { IfOk result (λ host. host.sources ≡ sources) }
    ensures in_place { IfOk result (λ host. host.sources_out.items ≡ replicate (length sources) false) }
    ensures output { IfOk result (λ host. host.out ≡ record { failing = out.state.failing; is_out = false }) }
    ensures errors { IfOk result (λ host. host.errors ≡ record { failing = errors.state.failing; is_out = false }) }
    ensures failing { IfOk result (λ host. (host.failing ≡ failing) × (host.calls ≡ 0)) }
    ensures fresh { IfOk result (λ host. (host.faults ≡ record { sources = 0; outputs = 0; errors = 0 })
        × (host.asks ≡ record { asked = []; held = 0 }) × (host.returned ≡ [])) }
{
    let sources_out = vec![in alloc; false; sources.len()]?;
    Ok(MemHost {
        alloc,
        sources,
        sources_out,
        out: Lent {
            failing: out.into_failing(),
            is_out: false,
        },
        errors: Lent {
            failing: errors.into_failing(),
            is_out: false,
        },
        calls: 0,
        failing,
        faults: Faults::NONE,
        asks: Asks::new(alloc),
        returned: Returned::new(),
    })
}

// The place of the first source of a name.
fn place_of(sources: &[(Bytes, MemSource)], name: &[u8]) -> Option<usize>
    ensures place { result ≡ place_named sources.now name.now }
    ensures bound { IfSome result (λ place. place < length sources.now) }
{
    sources.iter().position(|entry| entry.0.as_slice() == name)
}

// Where a call that doesn't fail finds its object: at its place, unless it is out.
fn free(fails: bool, out: &[bool], place: Option<usize>) -> Option<usize>
    ensures free { result ≡ free_place fails out.now place }
    ensures there { IfSome result (λ found. place ≡ Some found) }
{
    match place {
        Some(place) if !fails && !out.get(place).copied().unwrap_or(false) => Some(place),
        _ => None,
    }
}

fn mark(out: &mut [bool], place: usize, is_out: bool)
    ensures { out.new ≡ slice_set out.old place is_out }
{
    if place < out.len() {
        out[place] = is_out;
    }
}

// The numbers of failing calls once more.
fn copy_of(alloc: Global, failing: &Calls) -> Result<Calls, Memory>
    ensures { IfOk result (λ copy. copy ≡ failing.now) }
{
    Ok(Calls::from_vec(Vec::from_slice(alloc, failing.as_slice())?))
}

impl MemHost {
    // Counts a call, and says whether it is to fail.
    fn count_call(&mut self) -> bool
        ensures fails { result ≡ fails_at self.old.failing self.old.calls }
        ensures counted { self.new ≡ record self.old { calls = one_more self.old.calls } }
    {
        let fails = is_failing(&self.failing, self.calls);
        self.calls = self.calls.saturating_add(1);
        fails
    }

    // A fresh copy of the source at a place.
    fn fresh_source(&self, place: usize) -> Result<MemSource, Memory>
        requires { place < length self.now.sources }
        ensures { IfOk result (λ copy. IsFreshCopy self.now.sources place copy.state) }
    {
        let source = &self.sources.as_slice()[place].1;
        let bytes = Bytes::from_slice(self.alloc, source.state.whole.as_slice())?;
        let failing = copy_of(self.alloc, &source.state.failing)?;
        mem_source(self.alloc, bytes, failing)
    }

    // A fresh copy of a sink that isn't out.
    fn fresh_sink(&self, sink: &Lent) -> Result<MemSink, Memory>
        ensures { IfOk result (λ copy. copy.state ≡ record { taken = []; faults = 0; calls = 0; failing = sink.now.failing }) }
    {
        mem_sink(self.alloc, copy_of(self.alloc, &sink.failing)?)
    }
}

impl Host for MemHost {
    type In = MemSource;

    type Out = MemSink;

    ghost use Rattle.mur_edge.specs.MemoryHost.{host_facts};

    ghost facts = { host_facts };

    fn source(&mut self, name: &[u8]) -> Result<MemSource, HostFault>
        ensures fresh { IfOk result (λ source. IsFreshSource (source_facts source.state)) }
        ensures content { IfOk result (λ source. HasContent (content_named self.old.sources name.now) (source_facts source.state)) }
        ensures did { DidAsk (source_asked name.now) (host_facts self.old) (host_facts self.new) result }

        // The object is the one of that name, and is out from now on.
        ensures given { IfOk result (λ source.
            IsSomeAnd (free_place (fails_at self.old.failing self.old.calls) self.old.sources_out.items (place_named self.old.sources name.now))
            (λ place. IsFreshCopy self.old.sources place source.state × (self.new.sources_out.items ≡ slice_set self.old.sources_out.items place true))) }
        // It fails only where the call is to fail, or no object of that name is there.
        ensures refused { result ≡ Err failed
            → free_place (fails_at self.old.failing self.old.calls) self.old.sources_out.items (place_named self.old.sources name.now) ≡ None }
    {
        let fails = self.count_call();
        let place = free(
            fails,
            self.sources_out.as_slice(),
            place_of(self.sources.as_slice(), name),
        );
        let copy = match place {
            Some(place) => Some((place, self.fresh_source(place)?)),
            None => None,
        };
        let call = Asked::Source(Bytes::from_slice(self.alloc, name)?);
        match copy {
            Some((place, source)) => {
                self.asks.note_given(call)?;
                mark(self.sources_out.as_mut_slice(), place, true);
                Ok(source)
            }
            None => {
                self.asks.note_failed(call)?;
                self.faults.count_source();
                Err(HostFault::Failed)
            }
        }
    }

    fn out(&mut self) -> Result<MemSink, HostFault>
        ensures fresh { IfOk result (λ sink. IsFreshSink (sink_facts sink.state)) }
        ensures did { DidAsk out_asked (host_facts self.old) (host_facts self.new) result }

        ensures given { IfOk result (λ sink. (sink.state.failing ≡ self.old.out.failing) × (self.new.out.is_out ≡ true)) }
        ensures refused { result ≡ Err failed → (fails_at self.old.failing self.old.calls || self.old.out.is_out) ≡ true }
        ensures free { OnOk result ((fails_at self.old.failing self.old.calls || self.old.out.is_out) ≡ false) }
    {
        let fails = self.count_call();
        let copy = if fails || self.out.is_out {
            None
        } else {
            Some(self.fresh_sink(&self.out)?)
        };
        match copy {
            Some(sink) => {
                self.asks.note_given(Asked::Out)?;
                self.out.is_out = true;
                Ok(sink)
            }
            None => {
                self.asks.note_failed(Asked::Out)?;
                self.faults.count_output();
                Err(HostFault::Failed)
            }
        }
    }

    fn errors(&mut self) -> Result<MemSink, HostFault>
        ensures fresh { IfOk result (λ sink. IsFreshSink (sink_facts sink.state)) }
        ensures did { DidAsk errors_asked (host_facts self.old) (host_facts self.new) result }

        ensures given { IfOk result (λ sink. (sink.state.failing ≡ self.old.errors.failing) × (self.new.errors.is_out ≡ true)) }
        ensures refused { result ≡ Err failed → (fails_at self.old.failing self.old.calls || self.old.errors.is_out) ≡ true }
        ensures free { OnOk result ((fails_at self.old.failing self.old.calls || self.old.errors.is_out) ≡ false) }
    {
        let fails = self.count_call();
        let copy = if fails || self.errors.is_out {
            None
        } else {
            Some(self.fresh_sink(&self.errors)?)
        };
        match copy {
            Some(sink) => {
                self.asks.note_given(Asked::Errors)?;
                self.errors.is_out = true;
                Ok(sink)
            }
            None => {
                self.asks.note_failed(Asked::Errors)?;
                self.faults.count_error();
                Err(HostFault::Failed)
            }
        }
    }

    fn back(&mut self, used: Used<MemSource, MemSink>)
        ensures did { TakesBack (object_came used) (host_facts self.old) (host_facts self.new) }

        // The object may be handed out again.
        ensures sources_out { self.new.sources_out.items ≡ sources_out_after used self.old.sources self.old.sources_out.items }
        ensures output_out { self.new.out.is_out ≡ output_out_after used self.old.out.is_out }
        ensures errors_out { self.new.errors.is_out ≡ errors_out_after used self.old.errors.is_out }
    {
        self.asks.note_back();
        match used {
            Used::Source(name, source) => self.take_source(name, source),
            Used::Out(sink) => {
                let (state, room) = sink.into_parts();
                self.out.is_out = false;
                if state.faults > 0 {
                    self.faults.count_output();
                }
                self.returned.add(Used::Out(state), room);
            }
            Used::Errors(sink) => {
                let (state, room) = sink.into_parts();
                self.errors.is_out = false;
                if state.faults > 0 {
                    self.faults.count_error();
                }
                self.returned.add(Used::Errors(state), room);
            }
        }
    }
}

// The bytes of the newest output of a chain.
fn newest_output(chain: &Chain<MemUsed>) -> &[u8]
    ensures { result.now ≡ last_output (map memory_came (chain_entries chain.now)) }
{
    match chain {
        Chain::End => &[],
        Chain::More(Used::Out(sink), _) => sink.taken.as_slice(),
        Chain::More(_, older) => newest_output(older),
    }
}

// The bytes of the newest error output of a chain.
fn newest_errors(chain: &Chain<MemUsed>) -> &[u8]
    ensures { result.now ≡ last_errors (map memory_came (chain_entries chain.now)) }
{
    match chain {
        Chain::End => &[],
        Chain::More(Used::Errors(sink), _) => sink.taken.as_slice(),
        Chain::More(_, older) => newest_errors(older),
    }
}

impl MemHost {
    /// The bytes that the output had taken when it last came back: none where it didn't, or took nothing. It takes no memory.
    pub fn output(&self) -> &[u8]
        ensures { result.now ≡ last_output (map memory_came self.now.returned) }
    {
        newest_output(self.returned.chain())
    }

    /// The bytes that the error output had taken when it last came back: none where it didn't, or took nothing. It takes no
    /// memory.
    pub fn error_output(&self) -> &[u8]
        ensures { result.now ≡ last_errors (map memory_came self.now.returned) }
    {
        newest_errors(self.returned.chain())
    }

    fn take_source(&mut self, name: Bytes, source: MemSource)
        ensures out { self.new.sources_out.items ≡ freed (place_named self.old.sources name) self.old.sources_out.items }
        ensures faultless { source.state.faults ≡ 0 → self.new.faults ≡ self.old.faults }
        ensures faulty { 0 < source.state.faults → SourceFault self.old.faults self.new.faults }
        ensures same { self.new ≡ record self.old {
          sources_out = self.new.sources_out;
          faults = self.new.faults;
          returned = self.old.returned ++ source_used name source.state ∷ [];
        } }
    {
        let (state, room) = source.into_parts();
        if let Some(place) = place_of(self.sources.as_slice(), name.as_slice()) {
            mark(self.sources_out.as_mut_slice(), place, false);
        }
        if state.faults > 0 {
            self.faults.count_source();
        }
        self.returned.add(Used::Source(name, state), room);
    }
}
