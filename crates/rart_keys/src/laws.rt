//! Laws of the sorted map and its parts, of keys and their order, and of longest matches, each the contract of a
//! function.
ghost use Rattle.std.specs.Prelude.{◌≡◌, ◌≢◌, ◌≤◌, ◌↔◌, ◌+◌, ℕ, List, Some, None, length};
ghost use Rattle.rart_keys.specs.Joins.{AreKeysOf, ShareNoKey, both, join, swapped_pairs};
ghost use Rattle.rart_keys.specs.SortedMap.{IsAscending, count_of, lookup, put, without};

pub mod bulk_lists;
pub mod key_order;
pub mod longest;
pub mod parts;

/// Proves the laws of the sorted map. Ascending lists with the same look-ups are equal. `put` and `without` keep a
/// list ascending and change only the look-up of their key. Of two values put at a key the second stays. Removing a
/// newly inserted key restores the list.
pub fn sorted_map<V>()
    ensures one_list { (xs ys : List (List ℕ × V)) → IsAscending xs → IsAscending ys
        → ((q : List ℕ) → lookup q xs ≡ lookup q ys) → xs ≡ ys }
    ensures put_ascends { (k : List ℕ) (v : V) (es : List (List ℕ × V)) → IsAscending es
        → IsAscending (put k v es) }
    ensures put_at { (k : List ℕ) (v : V) (es : List (List ℕ × V))
        → lookup k (put k v es) ≡ Some v }
    ensures put_elsewhere { (q k : List ℕ) (v : V) (es : List (List ℕ × V)) → q ≢ k
        → lookup q (put k v es) ≡ lookup q es }
    ensures put_twice { (k : List ℕ) (v w : V) (es : List (List ℕ × V)) → IsAscending es
        → put k w (put k v es) ≡ put k w es }
    ensures put_length { (k : List ℕ) (v : V) (es : List (List ℕ × V)) → IsAscending es
        → length (put k v es) + count_of (lookup k es) ≡ length es + 1 }
    ensures without_ascends { (k : List ℕ) (es : List (List ℕ × V)) → IsAscending es
        → IsAscending (without k es) }
    ensures without_at { (k : List ℕ) (es : List (List ℕ × V)) → lookup k (without k es) ≡ None }
    ensures without_elsewhere { (q k : List ℕ) (es : List (List ℕ × V)) → q ≢ k
        → lookup q (without k es) ≡ lookup q es }
    ensures put_then_without { (k : List ℕ) (v : V) (es : List (List ℕ × V)) → IsAscending es
        → lookup k es ≡ None
        → without k (put k v es) ≡ es }
{}

/// Proves the laws of the join of two maps. It ascends, holds the keys of both with both values, and is no longer than
/// the first map. It is as long as the first map exactly if each key of that map is a key of the second. It is empty
/// exactly if the maps share no key. Swapping the maps swaps the values.
pub fn joins<V, W>()
    ensures ascending { (l : List (List ℕ × V)) (m : List (List ℕ × W)) → IsAscending l
        → IsAscending (join l m) }
    ensures looks { (k : List ℕ) (l : List (List ℕ × V)) (m : List (List ℕ × W)) → IsAscending l
        → lookup k (join l m) ≡ both (lookup k l) (lookup k m) }
    ensures join_length { (l : List (List ℕ × V)) (m : List (List ℕ × W))
        → length (join l m) ≤ length l }
    ensures whole { (l : List (List ℕ × V)) (m : List (List ℕ × W))
        → (length (join l m) ≡ length l) ↔ AreKeysOf l m }
    ensures apart { (l : List (List ℕ × V)) (m : List (List ℕ × W))
        → (length (join l m) ≡ 0) ↔ ShareNoKey l m }
    ensures other_way { (l : List (List ℕ × V)) (m : List (List ℕ × W)) → IsAscending l
        → IsAscending m
        → join m l ≡ swapped_pairs (join l m) }
{}
