//! A client that counts words in a map, proved from the public contract of `try_update_k` alone.
ghost use Rattle.std.specs.Prelude.{◌≡◌, ℕ, ◌+◌, ◌-◌, ◌^◌, Some, None, IsErr, OnErr, OnOk};
ghost use Rattle.rart_keys.specs.SortedMap.{lookup, put};

use rart::{AdaptiveRadixTree, ArrayKey, KeyTrait, Slot, SlotUpdate, TryUpdateError};
use std::alloc::Global;

/// A counter that counts no further.
#[derive(Drop)]
pub struct IsFull;

/// Counts `word` once more: a new one has the count 1. A full counter isn't counted up, and the callback
/// says so.
pub fn count_word<K: KeyTrait>(
    counts: &mut AdaptiveRadixTree<K, u64>,
    word: &K,
) -> Result<bool, TryUpdateError<IsFull, u64>>
    ensures first { lookup (K.bytes word.now) counts.old.pairs ≡ None
        → OnOk result (counts.new.pairs ≡ put (K.bytes word.now) 1 counts.old.pairs) }
    ensures again { (n : ℕ) → lookup (K.bytes word.now) counts.old.pairs ≡ Some n
        → OnOk result (counts.new.pairs ≡ put (K.bytes word.now) (n + 1) counts.old.pairs) }
    ensures full { lookup (K.bytes word.now) counts.old.pairs ≡ Some (2 ^ 64 - 1) → IsErr result }
    ensures unchanged { OnErr result (counts.new ≡ counts.old) }
{
    counts.try_update_k(word, |slot| match slot {
        Slot::Vacant => Ok(SlotUpdate::Insert(1)),
        Slot::Occupied(count) => {
            if *count == u64::MAX {
                return Err(IsFull);
            }
            *count += 1;
            Ok(SlotUpdate::Keep)
        }
    })
}

type Counts = AdaptiveRadixTree<ArrayKey<16>, u64>;

static WORDS: [&str; 6] = ["to", "be", "or", "not", "to", "be"];

static COUNTED: [(&str, u64); 4] = [("to", 2), ("be", 2), ("or", 1), ("not", 1)];

// The first word that isn't counted, or whose count is another than wanted.
fn first_wrong_word(counts: &mut Counts) -> Option<&'static str> {
    for word in WORDS {
        let key = ArrayKey::<16>::new_from_slice(word.as_bytes());
        if count_word(counts, &key).is_err() {
            return Some(word);
        }
    }
    for (word, count) in &COUNTED {
        if counts.get_bytes(word.as_bytes()) != Some(count) {
            return Some(*word);
        }
    }
    None
}

// The first wrong word, and how many are stored.
fn count_words(alloc: Global) -> (Option<&'static str>, usize) {
    let mut counts = Counts::new(alloc);
    let wrong = first_wrong_word(&mut counts);
    (wrong, counts.len())
}

#[test]
fn words_are_counted(rt: HostRuntime) {
    assert_eq!(rt; count_words(rt.alloc()), (None, 4));
}

fn stays_full(counts: &mut Counts) -> bool {
    let word = ArrayKey::<16>::new_from_slice(b"to");
    counts.insert_k(&word, u64::MAX).is_ok()
        && matches!(
            count_word(counts, &word),
            Err(TryUpdateError::Callback(IsFull))
        )
        && counts.get_bytes(b"to") == Some(&u64::MAX)
}

fn is_kept_full(alloc: Global) -> bool {
    let mut counts = Counts::new(alloc);
    stays_full(&mut counts)
}

#[test]
fn a_full_counter_is_not_counted_up(rt: HostRuntime) {
    assert!(rt; is_kept_full(rt.alloc()));
}
