//! What an intersection does with each common pair: it counts, ends, or calls a callback with the values, the key or a
//! view of it. The callback may end the walk.
ghost use Rattle.std.specs.Prelude.{◌≡◌, ℕ, List, [], ◌∷◌, length, Result};
ghost use Rattle.std.specs.Option.{option_copied};
ghost use Rattle.rart_keys.specs.Joins.{both};
ghost use Rattle.rart_keys.specs.KeyBytes.{IsWithin};
ghost use Rattle.rart_nodes.specs.joins.PairCalls.{CalledAt, TakesAtKey};
ghost use Rattle.rart_nodes.specs.joins.Visitors.{AreVisitors, CanDeeper, CanGive};
ghost use Rattle.rart_nodes.specs.joins.JoinPaths.{Kept};
ghost use Rattle.rart_nodes.specs.joins.TriedPairs.{AnsweredAt, TakesPairAt, TriesEach};
ghost use Rattle.rart_trie.specs.tries.Trie.{own_pair};

use crate::node::control::VisitControl;
use crate::node::intersect::join_path::JoinPath;
use crate::node::view::LendingKeyView;
use rart_keys::KeyTrait;
use std::marker::PhantomData;

/// What is done at a pair, the state `F` that it is done to, and what a walk ends with that is ended by a pair, `B`.
pub(crate) trait Visitor<V, W, F, B> {
    ghost reserved: { Kept → ℕ → Type 0 };

    ghost can: { Kept → F → List ℕ × (V × W) → Type 0 };

    ghost given: { Kept → F → List (List ℕ × (V × W)) → Result (Unit {0}) B → F → Type 0 };

    /// Passes on the pair at the end of the path. An `Err` ends the walk.
    fn give(path: &JoinPath<'_>, f: &mut F, left: &V, right: &W) -> Result<(), B>
        requires reserved { reserved path.now 0 }
        requires callable { can path.now f.old ([], (left.now, right.now)) }
        ensures calls { given path.now f.old (([], (left.now, right.now)) ∷ []) result f.new };

    ghost lawful: { AreVisitors reserved given };

    ghost deeper: { CanDeeper can };
}

/// Passes on the pair at the end of the path if both nodes hold a value.
pub(crate) fn give_both<V, W, F, B, T: Visitor<V, W, F, B>>(
    left: Option<&V>,
    right: Option<&W>,
    path: &JoinPath<'_>,
    f: &mut F,
) -> Result<(), B>
    requires reserved { T.reserved path.now 0 }
    requires callable { CanGive T.can T.given path.now f.old
        (own_pair (both (option_copied left) (option_copied right))) }
    ensures calls { T.given path.now f.old (own_pair
        (both (option_copied left.entry) (option_copied right.entry))) result f.new }
{
    if let Some(value) = left {
        if let Some(other) = right {
            return T::give(path, f, value, other);
        }
    }
    Ok(())
}

/// Counts the pairs, up to `usize::MAX`.
pub(crate) struct Counted;

impl<V, W, B> Visitor<V, W, usize, B> for Counted {
    ghost use Rattle.rart_nodes.specs.joins.Visitors.{CountedOn, GivenValues, Throughout, give_values};
    ghost use Rattle.rart_nodes.specs.joins.JoinPaths.{PathReserved};

    ghost reserved = { PathReserved };

    ghost can = { λ s n x. Unit {0} };

    ghost given = { Throughout (GivenValues CountedOn) };

    fn give(_path: &JoinPath<'_>, count: &mut usize, _left: &V, _right: &W) -> Result<(), B> {
        *count = count.saturating_add(1);
        Ok(())
    }

    ghost lawful = { give_values CountedOn };

    ghost deeper = { λ s t p f x w h. tt };
}

/// Ends the walk at the first pair.
pub(crate) struct AtFirst;

impl<V, W> Visitor<V, W, (), ()> for AtFirst {
    ghost use Rattle.rart_nodes.specs.joins.Visitors.{GivenFirst, give_first};
    ghost use Rattle.rart_nodes.specs.joins.JoinPaths.{PathReserved};

    ghost reserved = { PathReserved };

    ghost can = { λ s f x. Unit {0} };

    ghost given = { GivenFirst };

    fn give(_path: &JoinPath<'_>, _state: &mut (), _left: &V, _right: &W) -> Result<(), ()> {
        Err(())
    }

    ghost lawful = { give_first };

    ghost deeper = { λ s t p f x w h. tt };
}

/// Calls with the values.
pub(crate) struct ByValues;

impl<V, W, F: FnMut(&V, &W), B> Visitor<V, W, F, B> for ByValues {
    ghost use Rattle.rart_nodes.specs.joins.Visitors.{CanGiveValues, GivenValues, Throughout, can_values, give_values};
    ghost use Rattle.rart_nodes.specs.joins.PairCalls.{CalledWith, TakesWith};
    ghost use Rattle.rart_nodes.specs.joins.JoinPaths.{PathReserved};

    ghost reserved = { PathReserved };

    ghost can = { CanGiveValues (λ p x. TakesWith F.FnMut p x) };

    ghost given = { Throughout (GivenValues (λ p x q. CalledWith F.FnMut p x q)) };

    fn give(_path: &JoinPath<'_>, f: &mut F, left: &V, right: &W) -> Result<(), B> {
        f(left, right);
        Ok(())
    }

    ghost lawful = { give_values (λ p x q. CalledWith F.FnMut p x q) };

    ghost deeper = { can_values (λ p x. TakesWith F.FnMut p x) };
}

/// Calls `f` with the key of these bytes and both values.
// Not inline: the recursion that calls it holds no key on the stack.
#[inline(never)]
fn call_with_key<K: KeyTrait, V, W, F: FnMut(K, &V, &W)>(
    bytes: &[u8],
    f: &mut F,
    left: &V,
    right: &W,
)
    requires within { IsWithin K.MAXIMUM_SIZE (length bytes.now) }
    requires callable { TakesAtKey F.FnMut K.bytes f.old (bytes.now, (left.now, right.now)) }
    ensures { CalledAt F.FnMut K.bytes f.old (bytes.now, (left.now, right.now)) f.new }
{
    f(K::new_from_slice(bytes), left, right);
}

/// Calls with the key, made of the bytes of the path, and the values.
pub(crate) struct ByKeys<K> {
    of: PhantomData<K>,
}

impl<K: KeyTrait, V, W, F: FnMut(K, &V, &W), B> Visitor<V, W, F, B> for ByKeys<K> {
    ghost use Rattle.rart_nodes.specs.joins.Visitors.{CanGiveKeys, GivenKeys, KeysReserved, Throughout, can_keys};
    ghost use Rattle.rart_nodes.specs.joins.Visitors.{give_keys};
    ghost use Rattle.rart_nodes.specs.joins.PairCalls.{CalledAt, TakesAtKey};

    ghost reserved = { KeysReserved K.MAXIMUM_SIZE };

    ghost can = { CanGiveKeys (λ p x. TakesAtKey F.FnMut K.bytes p x) };

    ghost given = { Throughout (GivenKeys (λ p x q. CalledAt F.FnMut K.bytes p x q)) };

    fn give(path: &JoinPath<'_>, f: &mut F, left: &V, right: &W) -> Result<(), B> {
        match path {
            JoinPath::Bytes(bytes) => {
                call_with_key(bytes.as_slice(), f, left, right);
                Ok(())
            }
            _ => unreachable!(),
        }
    }

    ghost lawful = { give_keys K.MAXIMUM_SIZE (λ p x q. CalledAt F.FnMut K.bytes p x q) };

    ghost deeper = { can_keys (λ p x. TakesAtKey F.FnMut K.bytes p x) };
}

/// Calls `f` with the key of these bytes and both values. An `Err` holds an answer that ends the walk.
#[inline(never)]
fn try_with_key<K: KeyTrait, V, W, E, F: FnMut(K, &V, &W) -> Result<VisitControl, E>>(
    bytes: &[u8],
    f: &mut F,
    left: &V,
    right: &W,
) -> Result<(), Result<(), E>>
    requires within { IsWithin K.MAXIMUM_SIZE (length bytes.now) }
    requires callable { TakesPairAt F.FnMut K.bytes f.old (bytes.now, (left.now, right.now)) }
    ensures { TriesEach (λ p x a q. AnsweredAt F.FnMut K.bytes p x a q) f.old
        ((bytes.now, (left.now, right.now)) ∷ []) result f.new }
{
    match f(K::new_from_slice(bytes), left, right) {
        Ok(VisitControl::Continue) => Ok(()),
        Ok(VisitControl::Stop) => Err(Ok(())),
        Err(error) => Err(Err(error)),
    }
}

/// Calls with the key, made of the bytes of the path, and the values, until a call ends the walk.
pub(crate) struct ByTriedKeys<K> {
    of: PhantomData<K>,
}

impl<K: KeyTrait, V, W, E, F: FnMut(K, &V, &W) -> Result<VisitControl, E>> Visitor<
    V,
    W,
    F,
    Result<(), E>,
> for ByTriedKeys<K> {
    ghost use Rattle.rart_nodes.specs.joins.Visitors.{CanGiveKeys, GivenTried, KeysReserved, can_keys, give_tried};
    ghost use Rattle.rart_nodes.specs.joins.TriedPairs.{AnsweredAt, TakesPairAt};

    ghost reserved = { KeysReserved K.MAXIMUM_SIZE };

    ghost can = { CanGiveKeys (λ p x. TakesPairAt F.FnMut K.bytes p x) };

    ghost given = { GivenTried (λ p x a q. AnsweredAt F.FnMut K.bytes p x a q) };

    fn give(path: &JoinPath<'_>, f: &mut F, left: &V, right: &W) -> Result<(), Result<(), E>> {
        match path {
            JoinPath::Bytes(bytes) => try_with_key(bytes.as_slice(), f, left, right),
            _ => unreachable!(),
        }
    }

    ghost lawful = { give_tried (λ p x a q. AnsweredAt F.FnMut K.bytes p x a q) K.MAXIMUM_SIZE };

    ghost deeper = { can_keys (λ p x. TakesPairAt F.FnMut K.bytes p x) };
}

/// Calls with a view of the segments of the path, and the values.
pub(crate) struct ByViews;

impl<V, W, F: FnMut(LendingKeyView<'_, '_>, &V, &W), B> Visitor<V, W, F, B> for ByViews {
    ghost use Rattle.rart_nodes.specs.joins.Visitors.{CanGiveViews, GivenViews, Throughout, ViewsReserved, can_views};
    ghost use Rattle.rart_nodes.specs.joins.Visitors.{give_views};
    ghost use Rattle.rart_nodes.specs.joins.ViewCalls.{TakesViewAt, ViewedAt};

    ghost reserved = { ViewsReserved };

    ghost can = { CanGiveViews (λ p x. TakesViewAt F.FnMut p x) };

    ghost given = { Throughout (GivenViews (λ p x q. ViewedAt F.FnMut p x q)) };

    fn give(path: &JoinPath<'_>, f: &mut F, left: &V, right: &W) -> Result<(), B> {
        match path {
            JoinPath::Segments(segments) => {
                f(LendingKeyView::of(segments.as_slice()), left, right);
                Ok(())
            }
            _ => unreachable!(),
        }
    }

    ghost lawful = { give_views (λ p x q. ViewedAt F.FnMut p x q) };

    ghost deeper = { can_views (λ p x. TakesViewAt F.FnMut p x) };
}
