//! Laws of the longest match of a probe, and of what edits of the sorted map do to it.
ghost use Rattle.std.specs.Prelude.{◌≡◌, ℕ, List, None};
ghost use Rattle.rart_keys.specs.Filters.{longest_match, matches};
ghost use Rattle.rart_keys.specs.LongestMatches.{AscendByLength, HasLonger, HasNoMatch, KeepsLongest, KeepsOthers};
ghost use Rattle.rart_keys.specs.LongestMatches.{LongestIsMatch, MatchIsLongest, TakesLongest};
ghost use Rattle.rart_keys.specs.SortedMap.{IsAscending, put, without};

/// Proves which longest matches an edit changes. A pair put at `p` is the match of each probe that `p` begins and no
/// longer key begins. Every other probe keeps its match, as do the probes that a removed `p` does not begin.
pub fn longest_matches<V>()
    ensures put_longest { (p q : List ℕ) (v : V) (es : List (List ℕ × V)) → IsAscending es
        → TakesLongest p v q es (put p v es) }
    ensures put_shorter { (p q : List ℕ) (v : V) (es : List (List ℕ × V)) → HasLonger p q es
        → KeepsLongest q es (put p v es) }
    ensures put_elsewhere { (p q : List ℕ) (v : V) (es : List (List ℕ × V))
        → KeepsOthers p q es (put p v es) }
    ensures without_elsewhere { (p q : List ℕ) (es : List (List ℕ × V))
        → KeepsOthers p q es (without p es) }
{}

/// Proves that the longest match is the pair with the longest stored key that begins the probe. Without a longest
/// match no stored key begins the probe. The keys of all matches ascend by length.
pub fn longest_is_longest<V>()
    ensures longest_match { (p q : List ℕ) (v : V) (es : List (List ℕ × V)) → IsAscending es
        → MatchIsLongest p v q es }
    ensures only { (p q : List ℕ) (v : V) (es : List (List ℕ × V)) → IsAscending es
        → LongestIsMatch p v q es }
    ensures none { (q : List ℕ) (es : List (List ℕ × V)) → longest_match q es ≡ None
        → HasNoMatch q es }
    ensures lengths { (q : List ℕ) (es : List (List ℕ × V)) → IsAscending es
        → AscendByLength (matches q es) }
{}
