//! The first and the last pair.
ghost use Rattle.std.specs.Prelude.{◌≡◌, None, slice_get};
ghost use Rattle.rart_keys.specs.Filters.{last_or};
ghost use Rattle.rart_c.specs.Answers.{Finds};
ghost use Rattle.rart_c.specs.Pairs128.{pair_in};

use crate::map128::handle::{Rart128, give, take};
use crate::map128::pairs::{Rart128Pair, pair_of};
use std::alloc::Global;

/// Writes the pair with the least key, and returns whether there is one.
#[unsafe(no_mangle)]
pub extern "C" fn rart128_first(map: &mut Rart128, alloc: Global, pair: &mut Rart128Pair) -> bool
    ensures found { Finds pair_in (slice_get map.old.held.tree.pairs 0)
        pair.old pair.new result }
    ensures same { map.new.held ≡ map.old.held }
{
    let Some(held) = take(map, alloc) else {
        return false;
    };
    let found = match held.tree.first_key_value() {
        Some((key, value)) => {
            *pair = pair_of(&key, *value);
            true
        }
        None => false,
    };
    give(map, alloc, held);
    found
}

/// Writes the pair with the greatest key, and returns whether there is one.
#[unsafe(no_mangle)]
pub extern "C" fn rart128_last(map: &mut Rart128, alloc: Global, pair: &mut Rart128Pair) -> bool
    ensures found { Finds pair_in (last_or None map.old.held.tree.pairs)
        pair.old pair.new result }
    ensures same { map.new.held ≡ map.old.held }
{
    let Some(held) = take(map, alloc) else {
        return false;
    };
    let found = match held.tree.last_key_value() {
        Some((key, value)) => {
            *pair = pair_of(&key, *value);
            true
        }
        None => false,
    };
    give(map, alloc, held);
    found
}
