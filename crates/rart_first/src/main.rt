//! The first program of README: it stores three words, finds the longest that begins a text, and lists a prefix's.
#![tactic(auto)]

use rart::{AdaptiveRadixTree, ArrayKey, Error, KeyTrait};
use std::alloc::Global;
use std::io;

/// Words of at most 16 bytes, numbered.
type Words = AdaptiveRadixTree<ArrayKey<16>, u64>;

fn three_words(alloc: Global) -> Result<Words, Error> {
    let mut words = Words::new(alloc);
    words.insert_k(&ArrayKey::new_from_slice(b"cat"), 1)?;
    words.insert_k(&ArrayKey::new_from_slice(b"catalog"), 2)?;
    words.insert_k(&ArrayKey::new_from_slice(b"dog"), 3)?;
    Ok(words)
}

fn main(rt: HostRuntime) -> io::Result<()> {
    let Ok(words) = three_words(rt.alloc()) else {
        return println!(rt; "out of memory");
    };
    if let Some(number) = words.longest_prefix_value_bytes(b"catalogue") {
        println!(rt; "catalogue: word {number}")?;
    }
    let Ok(found) = words.prefix_iter_k(&ArrayKey::new_from_slice(b"cat")) else {
        return println!(rt; "out of memory");
    };
    for (_key, number) in found {
        println!(rt; "begins with cat: word {number}")?;
    }
    Ok(())
}
