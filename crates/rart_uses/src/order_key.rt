//! A key type of one's own: a customer and an order, kept in an `ArrayKey`.
ghost use Rattle.std.specs.Prelude.{◌≡◌};

use rart::keys::array_key::ArrayKey;
use rart::partials::array_partial::ArrPartial;
use rart::{AdaptiveRadixTree, KeyTrait, Partial};
use std::cmp::Ordering;

/// Rows by their keys.
pub type ByOrder = AdaptiveRadixTree<OrderKey, u64>;

/// The customer's number, then the order's.
#[derive(Clone, Copy, Debug, PartialEq, Eq, PartialOrd, Ord)]
pub struct OrderKey {
    key: ArrayKey<8>,
}

impl OrderKey {
    /// Returns the key of an order.
    pub fn new(customer: u32, order: u32) -> Self {
        let both = (u64::from(customer) << 32) | u64::from(order);
        OrderKey {
            key: ArrayKey::from_u64(both),
        }
    }
}

impl KeyTrait for OrderKey {
    ghost use Rattle.std.specs.Prelude.{Some, refl};
    ghost use Rattle.std.proofs.lemmas.Slice.Eq.{bytes_eq-Decides};
    ghost use Rattle.rart_keys.specs.ArrayKeyBytes.{array_key_bytes};
    ghost use Rattle.rart_keys.specs.KeyBytes.{length-take-within, AreBytes-take};

    type PartialType = ArrPartial<8>;

    const MAXIMUM_SIZE: Option<usize> = Some(8);

    ghost MAXIMUM_SIZE = { Some 8 };

    ghost bytes = { λ k. array_key_bytes k.key };

    fn as_ref(&self) -> &[u8] {
        self.key.as_slice()
    }

    fn new_from_slice(slice: &[u8]) -> Self {
        OrderKey {
            key: ArrayKey::new_from_slice(slice),
        }
    }

    fn new_from_partial(partial: &ArrPartial<8>) -> Self {
        OrderKey {
            key: ArrayKey::new_from_partial(partial),
        }
    }

    fn extend_from_partial(&self, partial: &ArrPartial<8>) -> Self {
        OrderKey {
            key: self.key.extend_from_partial(partial),
        }
    }

    fn truncate(&self, at_depth: usize) -> Self {
        OrderKey {
            key: self.key.truncate(at_depth),
        }
    }

    fn at(&self, pos: usize) -> u8 {
        self.key.at(pos)
    }

    fn length_at(&self, at_depth: usize) -> usize {
        self.key.length_at(at_depth)
    }

    fn to_partial(&self, at_depth: usize) -> ArrPartial<8> {
        self.key.to_partial(at_depth)
    }

    fn matches_slice(&self, slice: &[u8]) -> bool {
        self.key.matches_slice(slice)
    }

    ghost same_maximum = { refl };

    ghost eq_is_of_bytes = { λ a b. bytes_eq-Decides (array_key_bytes a.key)
        (array_key_bytes b.key) };

    ghost cmp_is_of_bytes = { λ a b. refl };

    ghost within = { λ k. length-take-within k.key.len 8 k.key.stored k.key.in_range };

    ghost are_bytes = { λ k. AreBytes-take k.key.len k.key.stored k.key.are_bytes };
}
