//! A tuple index: two numbers in one key, big-endian, so that keys are in the order of the pairs.
ghost use Rattle.std.specs.Prelude.{◌≡◌, ◌++◌, IfErr, IfOk};
ghost use Rattle.std.specs.Int.{to_be_bytes, w32};
ghost use Rattle.rart_keys.specs.ArrayKeyBytes.{array_key_bytes};
ghost use Rattle.rart_keys.specs.Filters.{below};
ghost use Rattle.rart_trie.specs.walks.Calls.{MayLackMemory};

use rart::iter::Iter;
use rart::{AdaptiveRadixTree, ArrPartial, ArrayKey, KeyTrait, TreeError};

/// Rows by a customer and an order.
pub type Orders = AdaptiveRadixTree<ArrayKey<8>, u64>;

/// Returns the key of a customer's order: the bytes of one number, and then those of the other.
pub fn key_of(customer: u32, order: u32) -> ArrayKey<8>
    ensures { array_key_bytes result ≡ to_be_bytes w32 customer ++ to_be_bytes w32 order }
{
    let mut bytes = [0_u8; 8];
    bytes[..4].copy_from_slice(&customer.to_be_bytes());
    bytes[4..].copy_from_slice(&order.to_be_bytes());
    ArrayKey::<8>::new_from_slice(&bytes)
}

/// Returns an iterator over the rows of a customer, by ascending order.
///
/// # Errors
///
/// [`TreeError::Memory`] if there are rows and the allocation fails.
pub fn orders_of<'a>(
    orders: &'a Orders,
    customer: u32,
) -> Result<Iter<'a, ArrayKey<8>, ArrPartial<8>, u64>, TreeError>
    ensures rows { IfOk result (λ rows. rows ≡ below (to_be_bytes w32 customer) orders.now.pairs) }
    ensures memory { IfErr result (MayLackMemory orders.now.pairs) }
{
    orders.prefix_iter_k(&ArrayKey::<8>::from_u32(customer))
}
