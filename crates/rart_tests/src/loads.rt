//! Bulk loads by each form, of items that are tested to ascend, beside insertions one by one.
ghost use Rattle.std.specs.Prelude.{◌≡◌, ◌<◌, ◌++◌, ℕ, drop, length, reverse, slice_index_or, take, IfOk, IsTrue};
ghost use Rattle.std.specs.List.Sorted.{IsPermutation};
ghost use Rattle.rart_keys.specs.ArrayKeyBytes.{array_key_bytes};
ghost use Rattle.rart_keys.specs.SortedMap.{IsAscending};
ghost use Rattle.rart.specs.Steps.{pairs_in};

use crate::play::Tree;
use crate::play::replies::{are_alike, is_counted};
use rart::laws::bulk_loads::bulk_load_equals_insertion;
use rart::{AdaptiveRadixTree, ArrayKey, BulkError, TreeStats, TreeStatsTrait};
use rart_keys::laws::bulk_lists::ascending_pairs;
use std::alloc::{AllocError, Global};
use std::cell::Cell;
use std::cmp::Ordering;

pub type Key = ArrayKey<8>;

/// Whether the keys of the items ascend strictly.
pub fn ascend<V>(items: &[(Key, V)]) -> bool
    ensures { IsTrue result → IsAscending (pairs_in array_key_bytes items.now) }
{
    ascending_pairs::<V>();
    let Some((first, rest)) = items.split_first() else {
        return true;
    };
    match rest.first() {
        Some(second) => first.0.cmp(&second.0) == Ordering::Less && ascend(rest),
        None => true,
    }
}

/// The items by `bulk_load_sorted_unique`.
pub fn load_unique<V: Drop>(
    alloc: Global,
    items: Vec<(Key, V)>,
) -> Result<AdaptiveRadixTree<Key, V>, BulkError>
    requires { IsAscending (pairs_in array_key_bytes items.items) }
{
    ascending_pairs::<V>();
    AdaptiveRadixTree::bulk_load_sorted_unique(alloc, items)
}

/// Counts a call at the hexadecimal digit of its index.
pub fn count(calls: &Cell<usize>, i: usize) {
    let one = match i {
        0 => 0x1,
        1 => 0x10,
        2 => 0x100,
        3 => 0x1000,
        _ => 0x1_0000,
    };
    calls.set(calls.get().wrapping_add(one));
}

/// The load by index of the items' keys, which counts how often each is requested.
pub fn load_counting<W, V: Drop, F: FnMut(usize) -> V + Drop>(
    alloc: Global,
    items: &[(Key, W)],
    key_calls: &Cell<usize>,
    take: F,
) -> Result<AdaptiveRadixTree<Key, V>, BulkError>
    requires ascending { IsAscending (pairs_in array_key_bytes items.now) }
    requires callable { (f : _) (i : _) → F.pre f i }
{
    ascending_pairs::<W>();
    AdaptiveRadixTree::bulk_load_sorted_unique_by_index(
        alloc,
        items.len(),
        |i|
            requires { i < length items.now }
            ensures { (d : _) → result.now ≡ (slice_index_or items.entry.now i d).0 }
        {
            count(key_calls, i);
            &items[i].0
        },
        take,
    )
}

/// The keys of the items by `bulk_load_sorted_unique_by_index`, with the values that `take` gives.
pub fn load_by_index<W, V: Drop, F: FnMut(usize) -> V + Drop>(
    alloc: Global,
    items: &[(Key, W)],
    take: F,
) -> Result<AdaptiveRadixTree<Key, V>, BulkError>
    requires ascending { IsAscending (pairs_in array_key_bytes items.now) }
    requires callable { (f : _) (i : _) → F.pre f i }
{
    load_counting(alloc, items, &Cell::new(0_usize), take)
}

/// The keys of the items by `bulk_load_sorted_unique_by_index_by_ref`, with the values that `take` gives.
pub fn load_by_index_lent<W, V: Drop, F: FnMut(usize) -> V>(
    alloc: Global,
    items: &[(Key, W)],
    take: &mut F,
) -> Result<AdaptiveRadixTree<Key, V>, BulkError>
    requires ascending { IsAscending (pairs_in array_key_bytes items.now) }
    requires callable { (f : _) (i : _) → F.pre f i }
{
    ascending_pairs::<W>();
    AdaptiveRadixTree::bulk_load_sorted_unique_by_index_by_ref(
        alloc,
        items.len(),
        |i|
            requires { i < length items.now }
            ensures { (d : _) → result.now ≡ (slice_index_or items.entry.now i d).0 }
        { &items[i].0 },
        take,
    )
}

/// The keys, each with its place.
pub fn items_of(alloc: Global, keys: &[Key]) -> Result<Vec<(Key, u64)>, AllocError> {
    let mut items = Vec::new(alloc);
    let mut place = 0_u64;
    for key in keys {
        items.push((*key, place))?;
        place = place.wrapping_add(1);
    }
    Ok(items)
}

// The keys, each with its place, inserted from the last to the first.
fn inserted(alloc: Global, keys: &[Key]) -> Option<Tree<Key>> {
    let mut tree = Tree::new(alloc);
    let mut place = keys.len();
    while 0 < place {
        place -= 1;
        if tree.insert_k(&keys[place], place as u64).is_err() {
            return None;
        }
    }
    Some(tree)
}

fn is_alike(loaded: Result<Tree<Key>, BulkError>, wanted: &Tree<Key>) -> bool {
    match loaded {
        Ok(tree) => are_alike(&tree, wanted),
        Err(_refused) => false,
    }
}

fn are_loaded_by_index(alloc: Global, items: &[(Key, u64)], wanted: &Tree<Key>) -> bool {
    let mut take = |i: usize| i as u64;
    ascend(items)
        && is_alike(load_by_index(alloc, items, |i| i as u64), wanted)
        && is_alike(load_by_index_lent(alloc, items, &mut take), wanted)
}

fn are_loaded_unique(alloc: Global, items: Vec<(Key, u64)>, wanted: &Tree<Key>) -> bool {
    ascend(&items) && is_alike(load_unique(alloc, items), wanted)
}

// Whether each form loads the keys, each with its place, as the wanted tree.
fn are_loaded(alloc: Global, keys: &[Key], wanted: &Tree<Key>) -> Result<bool, AllocError> {
    let sorted = Tree::bulk_load_sorted(alloc, items_of(alloc, keys)?);
    let items = items_of(alloc, keys)?;
    Ok(
        is_alike(sorted, wanted)
            && are_loaded_by_index(alloc, &items, wanted)
            && are_loaded_unique(alloc, items, wanted),
    )
}

fn has_counts(tree: &Tree<Key>, counts: &Counts<'_>) -> bool {
    match tree.get_tree_stats() {
        Ok(stats) => is_counted(&stats, &counts.0, counts.1),
        Err(_refused) => false,
    }
}

/// Whether the keys ascend, each form loads them as they are inserted, each with its place, and the tree has these
/// statistics.
pub fn loads_alike(alloc: Global, keys: &[Key], counts: &Counts<'_>) -> Result<bool, AllocError> {
    match inserted(alloc, keys) {
        Some(wanted) => {
            let loaded = are_loaded(alloc, keys, &wanted);
            Ok(has_counts(&wanted, counts) && loaded?)
        }
        None => Ok(false),
    }
}

// The keys, each with its place, twice: in their order and from the last on.
fn both_ways(alloc: Global, keys: &[Key]) -> Result<(Vec<(Key, u64)>, Vec<(Key, u64)>), AllocError>
    ensures { IfOk result (λ r. r.1.items ≡ reverse r.0.items) }
{
    let items = items_of(alloc, keys)?;
    let mut backward = items.clone()?;
    backward.reverse();
    Ok((items, backward))
}

// The keys, each with its place, twice: in their order, and those of the second half before those of the first.
fn halves_exchanged(
    alloc: Global,
    keys: &[Key],
) -> Result<(Vec<(Key, u64)>, Vec<(Key, u64)>), AllocError>
    ensures { IfOk result (λ r. (n : ℕ) × (r.1.items ≡ drop n r.0.items ++ take n r.0.items)) }
{
    let items = items_of(alloc, keys)?;
    let mut first = items.clone()?;
    let half = first.len() / 2;
    let mut exchanged = first.split_off(half)?;
    exchanged.append(&mut first)?;
    Ok((items, exchanged))
}

/// Leaves, values, inner nodes and height; and for each capacity its nodes and their children.
pub type Counts<'a> = ([usize; 4], &'a [(usize, usize, usize)]);

// Whether the loaded and the inserted tree are alike, and the statistics of both are these.
fn are_both(
    loaded: &(Tree<Key>, TreeStats),
    inserted: &(Tree<Key>, TreeStats),
    counts: &Counts<'_>,
) -> bool {
    are_alike(&loaded.0, &inserted.0)
        && is_counted(&loaded.1, &counts.0, counts.1)
        && is_counted(&inserted.1, &counts.0, counts.1)
}

// Whether the first items ascend, and the law of bulk loads gives trees that are alike and have these statistics.
fn law_holds_of(
    alloc: Global,
    sorted: Vec<(Key, u64)>,
    shuffled: Vec<(Key, u64)>,
    counts: &Counts<'_>,
) -> bool
    requires { IsPermutation (pairs_in array_key_bytes sorted.items)
        (pairs_in array_key_bytes shuffled.items) }
{
    if !ascend(&sorted) {
        return false;
    }
    match bulk_load_equals_insertion(alloc, sorted, shuffled) {
        Ok((loaded, inserted)) => are_both(&loaded, &inserted, counts),
        Err(_refused) => false,
    }
}

/// Whether the keys ascend and the law of bulk loads, called on them in two orders, gives trees that are alike and
/// have these statistics.
pub fn law_holds(alloc: Global, keys: &[Key], counts: &Counts<'_>) -> Result<bool, AllocError> {
    let (sorted, shuffled) = both_ways(alloc, keys)?;
    let backward = law_holds_of(alloc, sorted, shuffled, counts);
    let (sorted, shuffled) = halves_exchanged(alloc, keys)?;
    let exchanged = law_holds_of(alloc, sorted, shuffled, counts);
    Ok(backward && exchanged)
}
