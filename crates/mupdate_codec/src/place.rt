// Which place is told of bytes that are no name or location.
ghost use Rattle.std.specs.Prelude.{◌≡◌, IfOk, Err};
ghost use Rattle.grammar.specs.Part.{Part};
ghost use Rattle.mupdate_codec.specs.Strings.{mupdate_string};
ghost use Rattle.mupdate_codec.specs.Told.{told_left};

use crate::strings::string_of;
use grammar::{ReadError, Stop};
use mur_base::Memory;
use std::alloc::Global;

/// The stop that is told of an argument that stopped there: its beginning, where a string of any text goes on further. An
/// argument that stopped at the end of the bytes may still go on.
pub fn told_stop(alloc: Global, stop: Stop, bytes: &[u8]) -> Result<Stop, Memory>
    ensures { IfOk result (λ told. told.left ≡ told_left stop.left bytes.now (mupdate_string.at bytes.now)) }
{
    if stop.left == 0 {
        return Ok(stop);
    }
    match string_of(alloc, bytes) {
        Ok(_) => Ok(Stop { left: bytes.len() }),
        Err(ReadError::Memory) => Err(Memory),
        Err(ReadError::Stopped(further)) => {
            if further.left < stop.left {
                Ok(Stop { left: bytes.len() })
            } else {
                Ok(stop)
            }
        }
    }
}
