//! A series of readings by time stamps, and those of a range of time.
ghost use Rattle.std.specs.Prelude.{◌≡◌, IfErr, IfOk};
ghost use Rattle.std.specs.Int.{to_be_bytes, w64};
ghost use Rattle.std.specs.declared.ops.Bound.TheVariants.{Included, Excluded};
ghost use Rattle.rart_keys.specs.Ranges.{between, up_to};
ghost use Rattle.rart_trie.specs.walks.Calls.{MayLackMemory};

use rart::range::Range;
use rart::{AdaptiveRadixTree, ArrayKey, TreeError};
use std::ops::Bound;

/// Readings by their time stamps.
pub type Readings = AdaptiveRadixTree<ArrayKey<8>, u64>;

/// Returns an iterator over the readings from `start` on, before `end`, ascending by time.
///
/// # Errors
///
/// [`TreeError::Memory`] if there are readings and the allocation fails.
pub fn readings_between<'a>(
    readings: &'a Readings,
    start: u64,
    end: u64,
) -> Result<Range<'a, ArrayKey<8>, u64>, TreeError>
    ensures readings { IfOk result (λ r. up_to r.0 r.1
        ≡ between (Included (to_be_bytes w64 start)) (Excluded (to_be_bytes w64 end))
        readings.now.pairs) }
    ensures memory { IfErr result (MayLackMemory readings.now.pairs) }
{
    readings.range(
        Bound::Included(ArrayKey::<8>::from_u64(start)),
        Bound::Excluded(ArrayKey::<8>::from_u64(end)),
    )
}
