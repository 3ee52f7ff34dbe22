//! Laws of the union and of the difference of two maps.
ghost use Rattle.std.specs.Prelude.{◌≡◌, ℕ, List};
ghost use Rattle.rart_keys.specs.Joins.{swapped_pairs};
ghost use Rattle.rart_keys.specs.SortedMap.{IsAscending, lookup};
ghost use Rattle.rart.specs.Unions.{difference_of, either, first_alone, union_of};

use rart_keys::laws::sorted_map;

/// Proves the laws of the union of two maps. It ascends, and holds each key of either map with its value in each.
/// Swapping the maps swaps the values.
pub fn unions<V, W>()
    ensures ascending { (l : List (List ℕ × V)) (m : List (List ℕ × W)) → IsAscending m
        → IsAscending (union_of l m) }
    ensures looks { (k : List ℕ) (l : List (List ℕ × V)) (m : List (List ℕ × W))
        → lookup k (union_of l m) ≡ either (lookup k l) (lookup k m) }
    ensures other_way { (l : List (List ℕ × V)) (m : List (List ℕ × W)) → IsAscending l
        → IsAscending m
        → union_of m l ≡ swapped_pairs (union_of l m) }
{
    sorted_map::<(Option<V>, Option<W>)>();
    sorted_map::<(Option<W>, Option<V>)>();
}

/// Proves the laws of the difference of two maps. It ascends, and holds the keys that the second map doesn't have, with
/// their values in the first.
pub fn differences<V, W>()
    ensures ascending { (l : List (List ℕ × V)) (m : List (List ℕ × W)) → IsAscending l
        → IsAscending (difference_of l m) }
    ensures looks { (k : List ℕ) (l : List (List ℕ × V)) (m : List (List ℕ × W))
        → lookup k (difference_of l m) ≡ first_alone (lookup k l) (lookup k m) }
{}
