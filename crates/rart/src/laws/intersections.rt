//! The law of intersections: swapping the trees swaps the values alone.
ghost use Rattle.std.specs.Prelude.{◌≡◌, ◌⊎◌, IfErr, OnErr, OnOk};
ghost use Rattle.rart_keys.specs.Joins.{both, join, swapped_pairs};
ghost use Rattle.rart_keys.specs.SortedMap.{IsAscending, lookup};
ghost use Rattle.rart_nodes.specs.joins.PairCalls.{CallsAtEach, CanCallAt};
ghost use Rattle.rart_nodes.specs.joins.SeenJoins.{MayLackBoth};

use crate::tree::AdaptiveRadixTree;
use rart_keys::KeyTrait;
use rart_parts::TreeError;

/// Calls `f` with the pairs that `one` and `other` share, ascending, and then `g` with those of `other` and `one`.
///
/// Each key is shared by both trees and has the value of each. Swapping the trees swaps the values alone. Each callback
/// must be callable with its pairs in turn.
///
/// # Errors
///
/// [`TreeError::Memory`] if neither tree is empty and an allocation fails. `g` is then not called, and `f` with all
/// pairs or with none.
pub fn intersections_are_symmetric<K: KeyTrait, V, W, F: FnMut(K, &V, &W), G: FnMut(K, &W, &V)>(
    one: &AdaptiveRadixTree<K, V>,
    other: &AdaptiveRadixTree<K, W>,
    f: &mut F,
    g: &mut G,
) -> Result<(), TreeError>
    requires callable { CanCallAt F.FnMut K.bytes f.old
        (join one.now.pairs other.now.pairs) }
    requires callable_back { CanCallAt G.FnMut K.bytes g.old
        (swapped_pairs (join one.now.pairs other.now.pairs)) }
    ensures stays_callable { F.IsAlwaysCallable f.old → F.IsAlwaysCallable f.new }
    ensures stays_callable_back { G.IsAlwaysCallable g.old → G.IsAlwaysCallable g.new }
    ensures ascending { IsAscending (join one.now.pairs other.now.pairs) }
    ensures common { (k : _) → lookup k (join one.now.pairs other.now.pairs)
        ≡ both (lookup k one.now.pairs) (lookup k other.now.pairs) }
    ensures calls { OnOk result
        (CallsAtEach F.FnMut K.bytes f.old (join one.now.pairs other.now.pairs) f.new) }
    ensures other_way { OnOk result (CallsAtEach G.FnMut K.bytes g.old
        (swapped_pairs (join one.now.pairs other.now.pairs)) g.new) }
    ensures unchanged { OnErr result (g.new ≡ g.old) }
    ensures once_or_never { OnErr result ((f.new ≡ f.old)
        ⊎ CallsAtEach F.FnMut K.bytes f.old (join one.now.pairs other.now.pairs) f.new) }
    ensures memory { IfErr result (MayLackBoth one.now.pairs other.now.pairs) }
{
    one.canonical();
    other.canonical();
    rart_keys::laws::joins::<V, W>();
    one.intersect_with_by_ref(other, f)?;
    other.intersect_with_by_ref(one, g)
}
