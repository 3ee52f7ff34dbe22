//! Laws of the lists that a bulk load reads.
ghost use Rattle.std.specs.Prelude.{◌≡◌, ◌<◌, ◌++◌, ◌∷◌, ℕ, List, [], Some, None, length, reverse, slice_index_or};
ghost use Rattle.std.specs.List.Sorted.{IsPermutation};
ghost use Rattle.rart_keys.specs.ByteStrings.{IsLess};
ghost use Rattle.std.specs.declared.cmp.Ordering.TheVariants.{Less, Equal, Greater};
ghost use Rattle.rart_keys.specs.BulkLists.{IsFaultAt, WasRead, first_fault, last_wins, order_of_last, put_all};
ghost use Rattle.rart_keys.specs.SortedMap.{IsAscending, keys_of, lookup};

/// Proves that `first_fault` is the first index whose key is below the one before it. If there is none, `last_wins`
/// ascends and keeps the last value of each key. A strictly ascending list has no fault and stays unchanged.
pub fn bulk_lists<V>()
    ensures is_fault { (es : List (List ℕ × V)) (i : ℕ) → first_fault es ≡ Some i → IsFaultAt es i }
    ensures is_first { (es : List (List ℕ × V)) (i j : ℕ) → first_fault es ≡ Some i → j < i
        → ¬ (IsFaultAt es j) }
    ensures no_fault { (es : List (List ℕ × V)) (i : ℕ) → first_fault es ≡ None
        → ¬ (IsFaultAt es i) }
    ensures ascending { (es : List (List ℕ × V)) → first_fault es ≡ None
        → IsAscending (last_wins es) }
    ensures last_values { (k : List ℕ) (es : List (List ℕ × V)) → first_fault es ≡ None
        → lookup k (last_wins es) ≡ lookup k (reverse es) }
    ensures strict_faultless { (es : List (List ℕ × V)) → IsAscending es → first_fault es ≡ None }
    ensures strict_stays { (es : List (List ℕ × V)) → IsAscending es → last_wins es ≡ es }
{}

/// Proves what one more item does to a faultless list. A greater key is appended, an equal key replaces the last
/// value, and a smaller key is the first fault.
pub fn one_item_more<V>()
    ensures later { (es : List (List ℕ × V)) (ks : List (List ℕ)) (vs : List V) (k : List ℕ) (v : V)
        → WasRead es ks vs
        → order_of_last ks k ≡ Less
        → WasRead (es ++ (k, v) ∷ []) (ks ++ k ∷ []) (vs ++ v ∷ []) }
    ensures same { (es : List (List ℕ × V)) (ks : List (List ℕ)) (vs ws : List V) (w : V)
        (k : List ℕ) (v : V)
        → WasRead es ks vs → order_of_last ks k ≡ Equal → vs ≡ ws ++ w ∷ []
        → WasRead (es ++ (k, v) ∷ []) ks (ws ++ v ∷ []) }
    ensures earlier { (es : List (List ℕ × V)) (ks : List (List ℕ)) (vs : List V)
        (k : List ℕ) (v : V)
        → WasRead es ks vs → order_of_last ks k ≡ Greater
        → first_fault (es ++ (k, v) ∷ []) ≡ Some (length es) }
{}

/// Proves that inserting a strictly ascending list in any order yields that list.
pub fn put_in_any_order<V>()
    ensures { (xs ys : List (List ℕ × V)) → IsAscending xs → IsPermutation xs ys
        → put_all ys [] ≡ xs }
{}

/// Proves that an ascending list can be extended at the front, and that its prefixes and any two of its keys ascend.
pub fn ascending_pairs<V>()
    ensures one_more { (e f : List ℕ × V) (es : List (List ℕ × V)) → IsLess e.0 f.0
        → IsAscending (f ∷ es)
        → IsAscending (e ∷ f ∷ es) }
    ensures beginning { (es more : List (List ℕ × V)) → IsAscending (es ++ more) → IsAscending es }
    ensures any_two { (es : List (List ℕ × V)) (i j : ℕ) → IsAscending es → i < j → j < length es
        → IsLess (slice_index_or (keys_of es) i []) (slice_index_or (keys_of es) j []) }
{}
