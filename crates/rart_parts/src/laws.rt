//! Laws of maps from bytes, each the contract of a function with an empty body.
ghost use Rattle.std.specs.Prelude.{◌≡◌, ℕ, ◌<◌, ◌≤◌, ◌+◌, List, None, length};
ghost use Rattle.rart_parts.specs.Entries.{BytesAscend, child_at, with_entry};

/// Proves that a map with no child at a byte `k` has a free place, and that a new child at `k` makes it one longer.
pub fn free_byte<N>()
    ensures at_most { (k : ℕ) (es : List (ℕ × N)) → k < 256 → child_at k es ≡ None → BytesAscend es
        → ((b : ℕ) → 256 ≤ b → child_at b es ≡ None) → length es < 256 }
    ensures longer { (k : ℕ) (x : N) (es : List (ℕ × N)) → child_at k es ≡ None
        → length (with_entry k x es) ≡ length es + 1 }
{}
