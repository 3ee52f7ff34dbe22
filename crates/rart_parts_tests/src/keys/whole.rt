//! Keys of bytes and texts.

use crate::compare::expect_eq;
use rart_keys::keys::array_key::ArrayKey;
use rart_keys::{ArrPartial, KeyTrait, Partial};
use std::cmp::Ordering;
use std::test::Fail;

#[test]
fn a_key_may_be_empty_or_fill_its_width(rt: HostRuntime) {
    let none = ArrayKey::<0>::new_from_slice(b"");
    expect_eq(&rt, none.as_slice(), b"".as_slice());
    expect_eq(&rt, none.as_array(), &[]);
    let full = ArrayKey::<4>::new_from_slice(b"abcd");
    expect_eq(&rt, full.as_slice(), b"abcd".as_slice());
    expect_eq(&rt, full.as_array(), b"abcd");
}

#[test]
fn a_truncated_key_keeps_no_old_bytes(rt: HostRuntime) {
    let key = ArrayKey::<8>::new_from_slice(b"hello").truncate(3);
    let same = ArrayKey::<8>::new_from_slice(b"hel");
    assert!(rt; key == same);
    expect_eq(&rt, key.cmp(&same), Ordering::Equal);
    expect_eq(&rt, key.as_array(), b"hel\0\0\0\0\0");
}

#[test]
fn keys_are_ordered_from_the_front(rt: HostRuntime) {
    let rows = [
        (b"".as_slice(), b"a".as_slice(), Ordering::Less),
        (b"a", b"ab", Ordering::Less),
        (b"ab", b"b", Ordering::Less),
        (b"\xff", b"\x7f", Ordering::Greater),
        (b"ab", b"ab", Ordering::Equal),
    ];
    for (first, second, want) in rows {
        assert!(rt; first.len() <= 4 && second.len() <= 4);
        let a = ArrayKey::<4>::new_from_slice(first);
        let b = ArrayKey::<4>::new_from_slice(second);
        expect_eq(&rt, a.cmp(&b), want);
        expect_eq(&rt, a.partial_cmp(&b), Some(want));
    }
}

#[test]
fn a_key_is_taken_apart_and_joined(rt: HostRuntime) {
    let key = ArrayKey::<8>::new_from_slice(b"hel");
    let joined = key.extend_from_partial(&ArrPartial::from_slice(b"lo"));
    assert!(rt; joined.matches_slice(b"hello"));
    expect_eq(&rt, joined.truncate(3).as_slice(), b"hel".as_slice());
    assert!(rt; !joined.matches_slice(b"hell"));
    expect_eq(&rt, joined.at(4), b'o');
    expect_eq(&rt, joined.length_at(2), 3);
    expect_eq(&rt, joined.to_partial(2).to_slice(), b"llo".as_slice());
    expect_eq(
        &rt,
        ArrayKey::<8>::new_from_partial(&joined.to_partial(1)).as_ref(),
        b"ello".as_slice(),
    );
    assert!(rt; ArrPartial::from(joined) == joined.to_partial(0));
    assert!(rt; ArrayKey::<8>::new_from_partial(&joined.to_partial(0)) == joined);
}

#[test]
fn a_text_key_has_the_bytes_of_the_text(rt: HostRuntime) -> Result<(), Fail> {
    let want = [0x68, 0x65, 0x6c, 0x6c, 0x6f];
    let key = ArrayKey::<5>::new_from_str("hello");
    expect_eq(&rt, key.as_slice(), want.as_slice());
    let roomy = ArrayKey::<16>::new_from_str("hello");
    expect_eq(&rt, roomy.as_ref(), want.as_slice());
    let text = String::from_str(rt.alloc(), "hello")?;
    expect_eq(&rt, text.len(), 5);
    assert!(rt; ArrayKey::<5>::new_from_string(&text) == key);
    assert!(rt; ArrayKey::<5>::new_from_array(want) == key);
    assert!(rt; ArrayKey::<0>::new_from_str("").as_slice().is_empty());
    Ok(())
}

#[test]
fn a_terminated_key_ends_in_a_zero_byte(rt: HostRuntime) {
    let want = [0x68, 0x65, 0x6c, 0x6c, 0x6f, 0x00];
    let key = ArrayKey::<6>::new_from_str_terminated("hello");
    expect_eq(&rt, key.as_slice(), want.as_slice());
    let roomy = ArrayKey::<16>::new_from_str_terminated("hello");
    expect_eq(&rt, roomy.as_ref(), want.as_slice());
    expect_eq(
        &rt,
        ArrayKey::<1>::new_from_str_terminated("").as_slice(),
        [0].as_slice(),
    );
}

// Through the traits alone.
fn begins_with_part_at<K: KeyTrait>(key: &K, part: &K::PartialType, depth: usize) -> bool {
    depth <= key.as_ref().len() && part.prefix_length_key(key.as_ref(), depth) == part.len()
}

#[test]
fn the_traits_serve_generic_code(rt: HostRuntime) {
    let key = ArrayKey::<16>::new_from_slice(b"catalog");
    let part = ArrPartial::<16>::from_slice(b"log");
    assert!(rt; begins_with_part_at(&key, &part, 4));
    assert!(rt; !begins_with_part_at(&key, &part, 3));
    assert!(rt; !begins_with_part_at(&key, &part, 8));
    expect_eq(&rt, <ArrayKey<16> as KeyTrait>::MAXIMUM_SIZE, Some(16));
    expect_eq(&rt, <ArrPartial<16> as Partial>::MAXIMUM_SIZE, Some(16));
}
