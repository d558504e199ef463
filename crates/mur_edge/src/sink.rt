// What is written: the trait, and the loop that writes a whole slice.
ghost use Rattle.std.specs.Prelude.{◌<◌, length, IfOk, OnOk};
ghost use Rattle.std.specs.Io.{WritesAtMost};
ghost use Rattle.mur_edge.specs.Counts.{CountsFailures};
ghost use Rattle.mur_edge.specs.Sink.{SinkFacts, DidWrite, Took, TookFront};

use crate::fault::Failed;

/// Where bytes go. A sink may tell the bytes that it took or not, and whether it does never changes.
pub trait Sink {
    // what it tells; the count of faults never falls, and stands still at the end of its type
    ghost facts: { Self → SinkFacts };

    /// Takes bytes from the front of `piece`, at least one where there is one, and says how many.
    ///
    /// `Failed` comes exactly where the count of faults rose, and nothing is taken then.
    fn write(&mut self, piece: &[u8]) -> Result<usize, Failed>
        ensures bound { WritesAtMost result piece.now }
        ensures some { IfOk result (λ n. 0 < length piece.now → 0 < n) }
        ensures did { DidWrite (facts self.old) (facts self.new) result piece.now };
}

/// Writes all of `bytes`, in as many writes as it takes. It takes no memory.
///
/// `Failed` comes exactly where the sink's count of faults rose, and a front of the bytes is taken then.
pub fn write_all<S: Sink>(sink: &mut S, bytes: &[u8]) -> Result<(), Failed>
    ensures all { OnOk result (Took (S.facts sink.old).taken (S.facts sink.new).taken bytes.now) }
    ensures front { TookFront (S.facts sink.old).taken (S.facts sink.new).taken bytes.now }
    ensures cause { CountsFailures (S.facts sink.old).faults (S.facts sink.new).faults result }
{
    let mut at = 0;
    while at < bytes.len() {
        at += sink.write(&bytes[at..])?;
    }
    Ok(())
}
