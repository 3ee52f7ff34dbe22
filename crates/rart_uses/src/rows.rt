//! The rows that the program calls the uses on.
use crate::completions::Words;
use crate::hops::{Routes, add_route};
use crate::order_key::{ByOrder, OrderKey};
use crate::pairs::{Orders, key_of};
use crate::readings::Readings;
use rart::{ArrayKey, Error, KeyTrait};
use std::alloc::Global;

/// Returns the routes of two networks, one inside the other.
///
/// # Errors
///
/// [`Error`] if an allocation fails.
pub fn routes(alloc: Global) -> Result<Routes, Error> {
    let mut routes = Routes::new(alloc);
    add_route(&mut routes, &[10], 1)?;
    add_route(&mut routes, &[10, 1], 2)?;
    Ok(routes)
}

/// Returns three words, of which one begins another.
///
/// # Errors
///
/// [`Error`] if an allocation fails.
pub fn words(alloc: Global) -> Result<Words, Error> {
    let mut words = Words::new(alloc);
    for (word, count) in [(b"cat".as_slice(), 1_u64), (b"catalog", 2), (b"dog", 3)] {
        words.insert_k(&ArrayKey::<32>::new_from_slice(word), count)?;
    }
    Ok(words)
}

/// Returns the orders of two customers; the value of each is its number.
///
/// # Errors
///
/// [`Error`] if an allocation fails.
pub fn orders(alloc: Global) -> Result<Orders, Error> {
    let mut orders = Orders::new(alloc);
    for (customer, order) in [(7_u32, 300_u32), (7, 2), (8, 1)] {
        orders.insert_k(&key_of(customer, order), u64::from(order))?;
    }
    Ok(orders)
}

/// Returns two orders of a customer; the value of each is its number.
///
/// # Errors
///
/// [`Error`] if an allocation fails.
pub fn by_order(alloc: Global) -> Result<ByOrder, Error> {
    let mut orders = ByOrder::new(alloc);
    orders.insert_k(&OrderKey::new(7, 300), 300)?;
    orders.insert_k(&OrderKey::new(7, 2), 2)?;
    Ok(orders)
}

/// Returns three readings; the value of each is its time.
///
/// # Errors
///
/// [`Error`] if an allocation fails.
pub fn readings(alloc: Global) -> Result<Readings, Error> {
    let mut readings = Readings::new(alloc);
    for time in [10_u64, 20, 30] {
        readings.insert_k(&ArrayKey::<8>::from_u64(time), time)?;
    }
    Ok(readings)
}
