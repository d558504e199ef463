// What stands before the end of the bytes.
ghost use Rattle.grammar.specs.Ends.{all_before};
ghost use Rattle.grammar.specs.Gives.{Finds};

use crate::error::Stop;

/// Reads all bytes before an ending, and gives them and what stands behind it, which is nothing.
pub fn all_before<'a>(ending: &[u8], bytes: &'a [u8]) -> Result<(&'a [u8], &'a [u8]), Stop>
    ensures { Finds (λ x. (x.0.now, x.1.now)) result ((all_before ending.now).at bytes.now) }
{
    let (text, end) = bytes.split_at(bytes.len().saturating_sub(ending.len()));
    if end == ending {
        Ok((text, &end[end.len()..]))
    } else {
        Err(Stop { left: 0 })
    }
}
