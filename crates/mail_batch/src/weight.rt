// The limits of a batch.
ghost use Rattle.std.specs.Prelude.{◌≡◌};
ghost use Rattle.mail_batch.specs.Weights.{weight_with, takes_change};

use mur_base::limits::{BATCH_CHANGE_LIMIT, CHANGE_WEIGHT};

/// The weight of a change with a body of so many bytes, at most the greatest `usize`.
pub fn weight_with(bytes: usize) -> usize
    ensures { result ≡ weight_with bytes }
{
    CHANGE_WEIGHT.saturating_add(bytes)
}

/// Whether a batch that has so many changes, and room for so much weight, takes a change of this weight. An empty batch takes
/// any change.
pub fn takes_change(count: usize, room: usize, weight: usize) -> bool
    ensures { result ≡ takes_change count room weight }
{
    count == 0 || (count < BATCH_CHANGE_LIMIT && weight <= room)
}
