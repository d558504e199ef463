// Who hands out sources and sinks, and takes them back.
ghost use Rattle.std.specs.Prelude.{IfOk};
ghost use Rattle.mur_edge.specs.Source.{IsFreshSource, HasContent};
ghost use Rattle.mur_edge.specs.Sink.{IsFreshSink};
ghost use Rattle.mur_edge.specs.Host.{HostFacts, DidAsk, TakesBack, came_of};

use crate::fault::HostFault;
use crate::sink::Sink;
use crate::source::Source;
use mur_base::Bytes;

/// A call that asked a host for an object.
#[derive(Drop)]
pub enum Asked {
    Source(Bytes),
    Out,
    Errors,
}

/// An object that goes back to its host: a source with the name under which it was handed out, the output, the error
/// output.
#[derive(Drop)]
pub enum Used<I, O> {
    Source(Bytes, I),
    Out(O),
    Errors(O),
}

/// Hands out sources and sinks. An object that is handed out has counted no fault and read or taken nothing; it goes
/// back by [`Host::back`].
///
/// A call counts a fault exactly where it answers `Failed`, and then of the kind of object that it was asked for.
pub trait Host {
    type In: Source;

    type Out: Sink;

    // what it tells; no count of faults ever falls
    ghost facts: { Self → HostFacts };

    /// The source of this name, with the content that the host tells of the name.
    fn source(&mut self, name: &[u8]) -> Result<Self::In, HostFault>
        ensures fresh { IfOk result (λ source. IsFreshSource (Self.In.facts source)) }
        ensures content { IfOk result (λ source. HasContent ((facts self.old).content name.now) (Self.In.facts source)) }
        ensures did { DidAsk (Asked.Source name.now) (facts self.old) (facts self.new) result };

    /// The output.
    fn out(&mut self) -> Result<Self::Out, HostFault>
        ensures fresh { IfOk result (λ sink. IsFreshSink (Self.Out.facts sink)) }
        ensures did { DidAsk Asked.Out (facts self.old) (facts self.new) result };

    /// The error output.
    fn errors(&mut self) -> Result<Self::Out, HostFault>
        ensures fresh { IfOk result (λ sink. IsFreshSink (Self.Out.facts sink)) }
        ensures did { DidAsk Asked.Errors (facts self.old) (facts self.new) result };

    /// Takes an object back. It takes no memory and can't fail. The host's count of the object's kind rises exactly where
    /// the object has counted a fault.
    fn back(&mut self, used: Used<Self::In, Self::Out>)
        ensures { TakesBack (came_of Self.In.facts Self.Out.facts used) (facts self.old) (facts self.new) };
}
