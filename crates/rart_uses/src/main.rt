//! Worked uses of the map, each a few lines over its public calls, with a contract proved from theirs.
//!
//! The program calls each use on a few rows, and prints what it returns.
#![tactic(auto)]

mod completions;
mod cursor;
mod examples;
mod hops;
mod numbers;
mod order_key;
mod outlines;
mod pairs;
mod readings;
mod rows;
mod shared;

use crate::completions::{Words, completions, count_completions};
use crate::examples::print_examples;
use crate::hops::{Routes, next_hop};
use crate::order_key::{ByOrder, OrderKey};
use crate::outlines::words_outlined;
use crate::pairs::{Orders, orders_of};
use crate::readings::{Readings, readings_between};
use crate::shared::count_shared;
use rart::KeyTrait;
use std::alloc::Global;
use std::io;

// The longest network that begins an address gives its next hop.
fn print_hops(rt: &impl Print, routes: &Routes) -> io::Result<()> {
    println!(rt; "hop of 10.1.2.3: {:?}", next_hop(routes, &[10, 1, 2, 3]))?;
    println!(rt; "hop of 10.2: {:?}", next_hop(routes, &[10, 2]))?;
    println!(rt; "hop of 11: {:?}", next_hop(routes, &[11]))
}

// Words are completed, ascending.
fn print_completions(rt: &impl Print, words: &Words) -> io::Result<()> {
    let Ok(found) = completions(words, b"ca") else {
        return println!(rt; "out of memory");
    };
    for (_word, chosen) in found {
        println!(rt; "completion of ca: chosen {chosen}")?;
    }
    match count_completions(words, b"d") {
        Ok(count) => println!(rt; "completions of d: {count}"),
        Err(_) => println!(rt; "out of memory"),
    }
}

// The tree of words is printed node by node.
fn print_nodes(rt: &impl Print, alloc: Global, words: &Words) -> io::Result<()> {
    match words_outlined(alloc, words) {
        Ok(text) => print!(rt; "{text}"),
        Err(_) => println!(rt; "out of memory"),
    }
}

// The orders of a customer ascend.
fn print_orders(rt: &impl Print, orders: &Orders) -> io::Result<()> {
    let Ok(found) = orders_of(orders, 7) else {
        return println!(rt; "out of memory");
    };
    for (_key, order) in found {
        println!(rt; "order of 7: {order}")?;
    }
    Ok(())
}

// A key type of one's own is looked up as any other.
fn print_order(rt: &impl Print, orders: &ByOrder) -> io::Result<()> {
    match orders.get_k(&OrderKey::new(7, 2)) {
        Some(order) => println!(rt; "order 2 of 7: {order}"),
        None => println!(rt; "no order 2 of 7"),
    }
}

// A walk makes its keys.
fn print_keys(rt: &impl Print, orders: &ByOrder) -> io::Result<()> {
    let Ok(found) = orders.iter() else {
        return println!(rt; "out of memory");
    };
    for (key, order) in found {
        let bytes = key.as_ref();
        println!(rt; "key {bytes:?}: order {order}")?;
    }
    Ok(())
}

// The readings between two times leave out the end.
fn print_readings(rt: &impl Print, readings: &Readings, end: u64) -> io::Result<()> {
    let Ok(found) = readings_between(readings, 15, end) else {
        return println!(rt; "out of memory");
    };
    for (_time, value) in found {
        println!(rt; "reading from 15 before {end}: {value}")?;
    }
    Ok(())
}

fn print_words_and_routes(rt: &impl Print, alloc: Global) -> io::Result<()> {
    match rows::routes(alloc) {
        Ok(routes) => print_hops(rt, &routes)?,
        Err(_) => println!(rt; "out of memory")?,
    }
    match rows::words(alloc) {
        Ok(words) => {
            print_completions(rt, &words)?;
            print_nodes(rt, alloc, &words)
        }
        Err(_) => println!(rt; "out of memory"),
    }
}

// All keys of an index are shared with itself.
fn print_numbers(rt: &impl Print, alloc: Global) -> io::Result<()> {
    match rows::orders(alloc) {
        Ok(orders) => print_orders(rt, &orders)?,
        Err(_) => println!(rt; "out of memory")?,
    }
    match rows::by_order(alloc) {
        Ok(orders) => {
            print_order(rt, &orders)?;
            print_keys(rt, &orders)?;
        }
        Err(_) => println!(rt; "out of memory")?,
    }
    match rows::readings(alloc) {
        Ok(readings) => print_all_readings(rt, &readings),
        Err(_) => println!(rt; "out of memory"),
    }
}

fn print_all_readings(rt: &impl Print, readings: &Readings) -> io::Result<()> {
    print_readings(rt, readings, 30)?;
    print_readings(rt, readings, 31)?;
    println!(rt; "keys of both: {}", count_shared(readings, readings))
}

fn main(rt: HostRuntime) -> io::Result<()> {
    let alloc = rt.alloc();
    print_words_and_routes(&rt, alloc)?;
    print_numbers(&rt, alloc)?;
    print_examples(&rt, alloc)
}
