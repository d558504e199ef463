// What is read: the trait, and the loop that reads up to a limit.
ghost use Rattle.std.specs.Prelude.{◌≡◌, ◌+◌, ◌<◌, IfOk};
ghost use Rattle.std.specs.Io.{ReadsAtMost};
ghost use Rattle.mur_edge.specs.Counts.{HasHostCause};
ghost use Rattle.mur_edge.specs.Source.{SourceFacts, DidRead, GaveFront, GaveAtMost};

use crate::fault::{Failed, HostFault};
use mur_base::Bytes;
use std::alloc::Global;

/// Bytes that come in. A source may tell its bytes or not, and whether it does never changes.
pub trait Source {
    // what it tells; the count of faults never falls, and each count stands still at the end of its type
    ghost facts: { Self → SourceFacts };

    /// Reads at most as many bytes as `buf` holds into its front and says how many. No byte, where there is room, is
    /// the end of the bytes.
    ///
    /// `Failed` comes exactly where the count of faults rose, and nothing is read then.
    fn read(&mut self, buf: &mut [u8]) -> Result<usize, Failed>
        ensures bound { ReadsAtMost result buf.new }
        ensures did { DidRead (facts self.old) (facts self.new) result buf.new };
}

// The bytes that one read may bring.
const PIECE: usize = 65_536;

/// Reads a source to its end or, where it is longer than `limit`, one byte further than that: so a source that never
/// ends is left after `limit + 1` bytes. The answer is longer than `limit` exactly where the source is.
///
/// `Failed` comes exactly where the source's count of faults rose. After either fault the source has given the bytes read so far.
pub fn read_front<S: Source>(
    alloc: Global,
    source: &mut S,
    limit: usize,
) -> Result<Bytes, HostFault>
    requires { limit < usize.MAX }
    ensures front { IfOk result (λ bytes. GaveFront (limit + 1) (S.facts source.old).left (S.facts source.new).left bytes) }
    ensures at_most { GaveAtMost (limit + 1) (S.facts source.old).left (S.facts source.new).left }
    ensures same { (S.facts source.new).whole ≡ (S.facts source.old).whole }
    ensures cause { HasHostCause (S.facts source.old).faults (S.facts source.new).faults result }
{
    let mut bytes = Bytes::new(alloc);
    let mut piece = [0u8; PIECE];
    while bytes.len() <= limit {
        let room = (limit - bytes.len() + 1).min(PIECE);
        let n = source.read(&mut piece[..room])?;
        if n == 0 {
            return Ok(bytes);
        }
        bytes.extend_from_slice(&piece[..n])?;
    }
    Ok(bytes)
}
