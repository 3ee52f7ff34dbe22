//! Parts of keys.

use crate::compare::expect_eq;
use rart_keys::{ArrPartial, Partial};
use std::test::Fail;

#[test]
fn a_part_is_cut_at_places(rt: HostRuntime) {
    let part = ArrPartial::<16>::from_slice(b"Hello, world!");
    expect_eq(&rt, part.partial_before(5).to_slice(), b"Hello".as_slice());
    expect_eq(&rt, part.partial_from(7, 5).to_slice(), b"world".as_slice());
    expect_eq(&rt, part.partial_after(7).to_slice(), b"world!".as_slice());
    expect_eq(&rt, part.at(0), 72);
    expect_eq(&rt, part.len(), 13);
    assert!(rt; !part.is_empty());
    assert!(rt; part.partial_after(13).is_empty());
    assert!(rt; part.starts_with(b"Hello,"));
    assert!(rt; part.ends_with(b"world!"));
    assert!(rt; !part.ends_with(b"Hello"));
}

#[test]
fn a_part_made_of_a_text_ends_in_a_zero_byte(rt: HostRuntime) {
    let part = ArrPartial::<16>::key(b"Hello, world!");
    expect_eq(&rt, part.to_slice(), b"Hello, world!\0".as_slice());
    expect_eq(&rt, part.len(), 14);
}

#[test]
fn a_part_may_fill_its_width(rt: HostRuntime) {
    let front = ArrPartial::<16>::from_slice(b"0123456789");
    let back = ArrPartial::<16>::from_slice(b"abcdef");
    let full = ArrPartial::<16>::from_slice(b"0123456789abcdef");
    assert!(rt; front.partial_extended_with(&back) == full);
    expect_eq(
        &rt,
        full.prefix_length_common(&front.partial_extended_with(&back)),
        16,
    );
    expect_eq(&rt, ArrPartial::<1>::key(b"").as_ref(), [0].as_slice());
    assert!(rt; ArrPartial::<0>::from_slice(b"").is_empty());
}

#[test]
fn a_part_is_walked_and_cloned(rt: HostRuntime) -> Result<(), Fail> {
    let part = ArrPartial::<8>::from_slice(b"abc");
    let mut by_loop = (&part).into_iter();
    let mut by_call = part.iter();
    for want in b"abc" {
        expect_eq(&rt, by_loop.next(), Some(want));
        expect_eq(&rt, by_call.next(), Some(want));
    }
    expect_eq(&rt, by_loop.next(), None);
    expect_eq(&rt, by_call.next(), None);
    assert!(rt; part.clone()? == part);
    Ok(())
}

#[test]
fn common_beginnings_of_texts(rt: HostRuntime) {
    let part = ArrPartial::<16>::from_slice(b"Hello, world!");
    let other = ArrPartial::<16>::from_slice(b"Hello, there!");
    expect_eq(&rt, part.prefix_length_common(&other), 7);
    expect_eq(&rt, part.prefix_length_slice(b"Hello, world! and more"), 13);
    let word = ArrPartial::<16>::from_slice(b"world");
    expect_eq(&rt, word.prefix_length_key(b"hello world!", 6), 5);
    expect_eq(&rt, word.prefix_length_key(b"hello world!", 12), 0);
}

#[test]
fn common_beginnings_end_at_the_first_of_several_differences(rt: HostRuntime) {
    let part = ArrPartial::<32>::from_slice(b"abcdefghijklmnopqrst");
    let rows = [
        (b"abcdefghijklmnopqrst", 20),
        (b"Abcdefghijklmnopqrst", 0),
        (b"abcDefGhijklmnopqrst", 3),
        (b"abcdefgHijklmnopqrst", 7),
        (b"abcdefghIjklmnopqrst", 8),
        (b"abcdefghijklmnoPqrst", 15),
        (b"abcdefghijklmnopqrsT", 19),
    ];
    for (bytes, want) in rows {
        let other = ArrPartial::<32>::from_slice(bytes);
        expect_eq(&rt, part.prefix_length_common(&other), want);
        expect_eq(&rt, other.prefix_length_common(&part), want);
        expect_eq(&rt, part.prefix_length_slice(bytes), want);
        expect_eq(&rt, part.prefix_length_key(bytes, 0), want);
    }
}
