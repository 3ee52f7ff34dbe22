//! Batches of pairs: ranges in both directions, and the keys that begin a probe.
ghost use Rattle.std.specs.Prelude.{◌≡◌, ◌≢◌, [], length, reverse, OnErr, OnOk};
ghost use Rattle.rart_keys.specs.ArrayKeyBytes.{array_key_bytes};
ghost use Rattle.rart_keys.specs.Filters.{matches};
ghost use Rattle.rart_keys.specs.Ranges.{between, bound_in};
ghost use Rattle.rart_c.specs.Answers.{status_of};
ghost use Rattle.rart_c.specs.Batches.{IsBatch, MatchesTo, RangesTo};
ghost use Rattle.rart_c.specs.Bounds.{bound_of, range_fault};
ghost use Rattle.rart_c.specs.Pairs128.{pair_in};

use crate::bounds::BoundFault;
use crate::map128::Tree;
use crate::map128::handle::{Rart128, give, take};
use crate::map128::keys::{bound_at, key_of};
use crate::map128::pairs::{Rart128Pair, write_batch};
use crate::status::{BAD_BOUND, DONE, KEY_TOO_LONG, NO_MEMORY};
use rart::{ArrayKey, TreeError};
use std::alloc::Global;
use std::ops::Bound;

/// Writes the pairs of a tree within two bounds, ascending.
fn write_range(
    tree: &Tree,
    start: Bound<ArrayKey<128>>,
    end: Bound<ArrayKey<128>>,
    out: &mut [Rart128Pair],
    written: &mut usize,
    more: &mut bool,
) -> Result<(), TreeError>
    ensures batch { OnOk result (IsBatch pair_in (between (bound_in array_key_bytes start)
        (bound_in array_key_bytes end) tree.now.pairs) out.old out.new written.new more.new) }
    ensures memory { OnErr result (tree.now.pairs ≢ []) }
    ensures unchanged { OnErr result
        ((out.new ≡ out.old) × (written.new ≡ written.old) × (more.new ≡ more.old)) }
{
    let walk = tree.range(start, end)?;
    write_batch(walk, out, written, more);
    Ok(())
}

/// Writes the pairs of a tree within two bounds, descending.
fn write_range_descending(
    tree: &Tree,
    start: Bound<ArrayKey<128>>,
    end: Bound<ArrayKey<128>>,
    out: &mut [Rart128Pair],
    written: &mut usize,
    more: &mut bool,
) -> Result<(), TreeError>
    ensures batch { OnOk result (IsBatch pair_in (reverse (between (bound_in array_key_bytes start)
        (bound_in array_key_bytes end) tree.now.pairs)) out.old out.new written.new more.new) }
    ensures memory { OnErr result (tree.now.pairs ≢ []) }
    ensures unchanged { OnErr result
        ((out.new ≡ out.old) × (written.new ≡ written.old) × (more.new ≡ more.old)) }
{
    let walk = tree.range_descending(start, end)?;
    write_batch(walk, out, written, more);
    Ok(())
}

/// Writes the pairs of a tree whose key begins `probe`, the shortest key first.
fn write_matches(
    tree: &Tree,
    probe: &ArrayKey<128>,
    out: &mut [Rart128Pair],
    written: &mut usize,
    more: &mut bool,
)
    ensures { IsBatch pair_in (matches (array_key_bytes probe.now) tree.now.pairs)
        out.old out.new written.new more.new }
{
    write_batch(tree.prefix_match_iter_k(probe), out, written, more);
}

/// Writes the pairs within two bounds to `out`, ascending by key, as many as fit. Writes their number to `written`, and
/// whether pairs are left to `more`. A caller that wants those passes the last key as an excluded start.
#[unsafe(no_mangle)]
pub extern "C" fn rart128_range(
    map: &mut Rart128,
    alloc: Global,
    start_kind: u8,
    start: &[u8],
    end_kind: u8,
    end: &[u8],
    out: &mut [Rart128Pair],
    written: &mut usize,
    more: &mut bool,
) -> u8
    ensures pairs { RangesTo pair_in
        (range_fault 128 start_kind start.now end_kind end.now) map.old.held.tree.pairs
        (between (bound_of start_kind start.now) (bound_of end_kind end.now)
        map.old.held.tree.pairs)
        (record { pairs = out.old; written = written.old; more = more.old })
        (record { pairs = out.new; written = written.new; more = more.new })
        (status_of result) }
    ensures same { map.new.held ≡ map.old.held }
{
    let start = match bound_at(start_kind, start) {
        Ok(bound) => bound,
        Err(BoundFault::KeyTooLong) => return KEY_TOO_LONG,
        Err(BoundFault::BadKind) => return BAD_BOUND,
    };
    let end = match bound_at(end_kind, end) {
        Ok(bound) => bound,
        Err(BoundFault::KeyTooLong) => return KEY_TOO_LONG,
        Err(BoundFault::BadKind) => return BAD_BOUND,
    };
    let Some(held) = take(map, alloc) else {
        *written = 0;
        *more = false;
        return DONE;
    };
    let answer = write_range(&held.tree, start, end, out, written, more);
    give(map, alloc, held);
    match answer {
        Ok(()) => DONE,
        Err(_) => NO_MEMORY,
    }
}

/// Writes the pairs within two bounds to `out`, descending by key, as many as fit. Writes their number to `written`,
/// and whether pairs are left to `more`. A caller that wants those passes the last key as an excluded end.
#[unsafe(no_mangle)]
pub extern "C" fn rart128_range_descending(
    map: &mut Rart128,
    alloc: Global,
    start_kind: u8,
    start: &[u8],
    end_kind: u8,
    end: &[u8],
    out: &mut [Rart128Pair],
    written: &mut usize,
    more: &mut bool,
) -> u8
    ensures pairs { RangesTo pair_in
        (range_fault 128 start_kind start.now end_kind end.now) map.old.held.tree.pairs
        (reverse (between (bound_of start_kind start.now) (bound_of end_kind end.now)
        map.old.held.tree.pairs))
        (record { pairs = out.old; written = written.old; more = more.old })
        (record { pairs = out.new; written = written.new; more = more.new })
        (status_of result) }
    ensures same { map.new.held ≡ map.old.held }
{
    let start = match bound_at(start_kind, start) {
        Ok(bound) => bound,
        Err(BoundFault::KeyTooLong) => return KEY_TOO_LONG,
        Err(BoundFault::BadKind) => return BAD_BOUND,
    };
    let end = match bound_at(end_kind, end) {
        Ok(bound) => bound,
        Err(BoundFault::KeyTooLong) => return KEY_TOO_LONG,
        Err(BoundFault::BadKind) => return BAD_BOUND,
    };
    let Some(held) = take(map, alloc) else {
        *written = 0;
        *more = false;
        return DONE;
    };
    let answer = write_range_descending(&held.tree, start, end, out, written, more);
    give(map, alloc, held);
    match answer {
        Ok(()) => DONE,
        Err(_) => NO_MEMORY,
    }
}

/// Writes the pairs whose key begins `probe` to `out`, the shortest key first, as many as fit. Writes their number to
/// `written`, and whether pairs are left to `more`.
#[unsafe(no_mangle)]
pub extern "C" fn rart128_matches(
    map: &mut Rart128,
    alloc: Global,
    probe: &[u8],
    out: &mut [Rart128Pair],
    written: &mut usize,
    more: &mut bool,
) -> u8
    ensures pairs { MatchesTo pair_in 128 (length probe.now)
        (matches probe.now map.old.held.tree.pairs)
        (record { pairs = out.old; written = written.old; more = more.old })
        (record { pairs = out.new; written = written.new; more = more.new })
        (status_of result) }
    ensures same { map.new.held ≡ map.old.held }
{
    let Some(probe) = key_of(probe) else {
        return KEY_TOO_LONG;
    };
    let Some(held) = take(map, alloc) else {
        *written = 0;
        *more = false;
        return DONE;
    };
    write_matches(&held.tree, &probe, out, written, more);
    give(map, alloc, held);
    DONE
}
