//! Laws of the parts of a sorted map: the pairs below a prefix, the other pairs, and the pairs within two bounds.
ghost use Rattle.std.specs.Prelude.{◌≡◌, ℕ, List, None, true, false};
ghost use Rattle.std.specs.declared.ops.Bound.{Bound};
ghost use Rattle.rart_keys.specs.ByteStrings.{begins};
ghost use Rattle.rart_keys.specs.Filters.{below, without_prefix};
ghost use Rattle.rart_keys.specs.Ranges.{between, is_from, is_to};
ghost use Rattle.rart_keys.specs.SortedMap.{IsAscending, lookup};

/// Proves the laws of the parts of a sorted map. `below` keeps the keys that the prefix begins, `without_prefix` all
/// others, and `between` those within both bounds. A kept key keeps its value, and each part ascends.
pub fn parts<V>()
    ensures below_inside { (p k : List ℕ) (es : List (List ℕ × V)) → begins p k ≡ true
        → lookup k (below p es) ≡ lookup k es }
    ensures below_outside { (p k : List ℕ) (es : List (List ℕ × V)) → begins p k ≡ false
        → lookup k (below p es) ≡ None }
    ensures below_ascends { (p : List ℕ) (es : List (List ℕ × V)) → IsAscending es
        → IsAscending (below p es) }
    ensures without_prefix_inside { (p k : List ℕ) (es : List (List ℕ × V)) → begins p k ≡ true
        → lookup k (without_prefix p es) ≡ None }
    ensures without_prefix_outside { (p k : List ℕ) (es : List (List ℕ × V)) → begins p k ≡ false
        → lookup k (without_prefix p es) ≡ lookup k es }
    ensures without_prefix_ascends { (p : List ℕ) (es : List (List ℕ × V)) → IsAscending es
        → IsAscending (without_prefix p es) }
    ensures between_inside { (lower upper : Bound (List ℕ)) (k : List ℕ) (es : List (List ℕ × V))
        → is_from lower k ≡ true → is_to upper k ≡ true
        → lookup k (between lower upper es) ≡ lookup k es }
    ensures between_before { (lower upper : Bound (List ℕ)) (k : List ℕ) (es : List (List ℕ × V))
        → is_from lower k ≡ false
        → lookup k (between lower upper es) ≡ None }
    ensures between_after { (lower upper : Bound (List ℕ)) (k : List ℕ) (es : List (List ℕ × V))
        → is_to upper k ≡ false
        → lookup k (between lower upper es) ≡ None }
    ensures between_ascends { (lower upper : Bound (List ℕ)) (es : List (List ℕ × V))
        → IsAscending es
        → IsAscending (between lower upper es) }
{}
