//! Keys of numbers, and the order of keys.

use crate::compare::expect_eq;
use rart_keys::laws::key_order;
use rart_keys::{ArrayKey, KeyTrait};
use std::cmp::Ordering;

#[test]
fn the_highest_byte_of_a_number_comes_first(rt: HostRuntime) {
    let rows = [
        (ArrayKey::<16>::from_u8(7), b"\x07".as_slice()),
        (ArrayKey::from_u16(0x0102), b"\x01\x02"),
        (ArrayKey::from_u32(42), b"\0\0\0\x2a"),
        (ArrayKey::from_u64(0x0102), b"\0\0\0\0\0\0\x01\x02"),
        (ArrayKey::from_usize(1), b"\0\0\0\0\0\0\0\x01"),
        (
            ArrayKey::from_u128(1),
            b"\0\0\0\0\0\0\0\0\0\0\0\0\0\0\0\x01",
        ),
    ];
    for (key, want) in rows {
        expect_eq(&rt, key.as_slice(), want);
    }
}

#[test]
fn the_sign_bit_of_a_signed_number_is_flipped(rt: HostRuntime) {
    let rows = [
        (ArrayKey::<16>::from_i8(-1), b"\x7f".as_slice()),
        (ArrayKey::from_i8(0), b"\x80"),
        (ArrayKey::from_i8(127), b"\xff"),
        (ArrayKey::from_i8(-128), b"\x00"),
        (ArrayKey::from_i16(-1), b"\x7f\xff"),
        (ArrayKey::from_i32(500), b"\x80\0\x01\xf4"),
        (ArrayKey::from_i64(-2), b"\x7f\xff\xff\xff\xff\xff\xff\xfe"),
        (ArrayKey::from_isize(0), b"\x80\0\0\0\0\0\0\0"),
        (
            ArrayKey::from_i128(1),
            b"\x80\0\0\0\0\0\0\0\0\0\0\0\0\0\0\x01",
        ),
    ];
    for (key, want) in rows {
        expect_eq(&rt, key.as_slice(), want);
    }
}

#[test]
fn the_first_eight_bytes_of_a_key_are_read_as_a_number(rt: HostRuntime) {
    let rows = [
        (ArrayKey::<16>::from_u64(123), 123),
        (ArrayKey::from_u64(1), 1),
        (ArrayKey::from_u64(123213123123123), 123213123123123),
        (ArrayKey::from_u128(1), 0),
        (ArrayKey::new_from_slice(b"ab"), 24930),
        (ArrayKey::new_from_slice(b""), 0),
    ];
    for (key, want) in rows {
        expect_eq(&rt, key.to_be_u64(), want);
    }
}

#[test]
fn keys_of_texts_and_numbers_are_in_their_order(rt: HostRuntime) {
    let (zero, _, order) = key_order::compared_text_keys::<4>("\0", "");
    expect_eq(&rt, zero.as_slice(), b"\0".as_slice());
    expect_eq(&rt, order, Ordering::Greater);
    let (closed, _, order) = key_order::compared_terminated_keys::<4>("\0", "");
    expect_eq(&rt, closed.as_slice(), b"\0\0".as_slice());
    expect_eq(&rt, order, Ordering::Greater);
    let orders = [
        key_order::compared_u8_keys::<16>(1, 0x80).2,
        key_order::compared_u16_keys::<16>(0xff, 0x100).2,
        key_order::compared_u32_keys::<16>(0xff, 0x100).2,
        key_order::compared_u64_keys::<16>(0xff, 0x100).2,
        key_order::compared_u128_keys::<16>(0xff, 0x100).2,
        key_order::compared_usize_keys::<16>(0xff, 0x100).2,
        key_order::compared_i8_keys::<16>(-128, -1).2,
        key_order::compared_i16_keys::<16>(-1, 0).2,
        key_order::compared_i32_keys::<16>(1, 500).2,
        key_order::compared_i32_keys::<16>(500, 666).2,
        key_order::compared_i64_keys::<16>(i64::MIN, i64::MAX).2,
        key_order::compared_i128_keys::<16>(i128::MIN, i128::MAX).2,
        key_order::compared_isize_keys::<16>(-256, -255).2,
    ];
    for order in orders {
        expect_eq(&rt, order, Ordering::Less);
    }
    let empty = ArrayKey::<4>::new_from_str("");
    expect_eq(
        &rt,
        key_order::equality_and_order(&zero, &empty),
        (false, Ordering::Greater),
    );
    expect_eq(
        &rt,
        key_order::key_and_number_again::<8>(u64::MAX).1,
        u64::MAX,
    );
}
