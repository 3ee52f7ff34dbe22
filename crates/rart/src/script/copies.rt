//! Copies of the pairs that a walk yields.
ghost use Rattle.std.specs.Prelude.{◌≡◌, ◌<◌, ℕ, List, [], length, IfErr, IfOk, OnErr, vec_capacity};
ghost use Rattle.std.specs.Iterator.{AlwaysYields, IsFinite};
ghost use Rattle.rart.specs.Steps.{pairs_in};
ghost use Rattle.rart_trie.specs.walks.Calls.{MayLackMemory};

use rart_keys::KeyTrait;
use rart_parts::TreeError;

/// Adds copies of the pairs that `walk` yields to the empty list `pairs`, in order. Allocates, and so fails,
/// only if `pairs` is full.
pub(super) fn copied_pairs<
    'a,
    K: KeyTrait + Drop,
    V: Copy + 'a,
    I: Iterator<Item = (K, &'a V)> + Drop,
>(mut pairs: Vec<(K, V)>, walk: I) -> Result<Vec<(K, V)>, TreeError>
    requires empty { pairs.items ≡ [] }
    requires can { I.can_next walk }
    requires ends { IsFinite (I.remaining walk) }
    ensures pairs { (all : List (List ℕ × V))
        → AlwaysYields I.next_gives (λ p. (K.bytes p.0, p.1.now)) walk all
        → IfOk result (λ pairs. pairs_in K.bytes pairs.items ≡ all) }
    ensures memory { (all : List (List ℕ × V))
        → AlwaysYields I.next_gives (λ p. (K.bytes p.0, p.1.now)) walk all
        → IfErr result (MayLackMemory all) }
    ensures capacity { (all : List (List ℕ × V))
        → AlwaysYields I.next_gives (λ p. (K.bytes p.0, p.1.now)) walk all
        → OnErr result (vec_capacity pairs < length all) }
{
    for (key, value) in walk {
        let Ok(()) = pairs.push((key, *value)) else {
            return Err(TreeError::Memory);
        };
    }
    Ok(pairs)
}
