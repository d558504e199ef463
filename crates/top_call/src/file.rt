// Reading a file of the host up to a limit.
ghost use Rattle.std.specs.Prelude.{◌<◌};
ghost use Rattle.mur_edge.specs.Host.{CountsCall};
ghost use Rattle.mur_edge.specs.declared.host.Asked.TheVariants.{Source};
ghost use Rattle.top_call.specs.Replay.{DidReadFile};

use mur_base::Bytes;
use mur_edge::{Host, HostFault, Used, read_front};
use std::alloc::Global;

/// Reads a file to its end, or one byte further than the limit, and gives its source back whatever comes.
pub fn read_file<H: Host>(
    alloc: Global,
    host: &mut H,
    name: &[u8],
    limit: usize,
) -> Result<Bytes, HostFault>
    requires { limit < usize.MAX }
    ensures did { DidReadFile limit name.now (H.facts host.old) (H.facts host.new) result }
    ensures cause { CountsCall (Source name.now) (H.facts host.old).faults (H.facts host.new).faults result }
{
    let its_name = Bytes::from_slice(alloc, name)?;
    let mut source = host.source(name)?;
    let bytes = read_front(alloc, &mut source, limit);
    host.back(Used::Source(its_name, source));
    bytes
}
