//! The shape of a set of keys, computed from its definition.

use rart_nodes::shape::{ShapeRecord, are_ascending, record_at, shape_of};
use rart_parts::TreeError;
use std::alloc::Global;
use std::test::Fail;

type Row<'a> = (&'a [u8], bool, &'a [u8], usize);

fn is_row(record: &ShapeRecord, row: &Row<'_>) -> bool {
    record.path.as_slice() == row.0
        && record.holds_value == row.1
        && record.edges.as_slice() == row.2
        && record.capacity == row.3
}

fn has_rows(alloc: Global, keys: &[&[u8]], rows: &[Row<'_>]) -> Result<bool, TreeError> {
    if !are_ascending(keys) {
        return Ok(false);
    }
    let shape = shape_of(alloc, keys)?;
    if shape.len() != rows.len() {
        return Ok(false);
    }
    for (record, row) in shape.iter().zip(rows) {
        if !is_row(record, row) {
            return Ok(false);
        }
    }
    Ok(true)
}

#[test]
fn keys_within_keys(rt: HostRuntime) -> Result<(), Fail> {
    let alloc = rt.alloc();
    assert!(rt; has_rows(alloc, &[], &[])?);
    assert!(rt; has_rows(alloc, &[b""], &[(b"", true, b"", 0)])?);
    let rows: [Row<'_>; 2] = [(b"a", true, b"b", 4), (b"ab", true, b"", 0)];
    assert!(rt; has_rows(alloc, &[b"a", b"ab"], &rows)?);
    let rows: [Row<'_>; 4] = [
        (b"ab", true, b"c", 4),
        (b"abc", false, b"de", 4),
        (b"abcd", true, b"", 0),
        (b"abce", true, b"", 0),
    ];
    assert!(rt; has_rows(alloc, &[b"ab", b"abcd", b"abce"], &rows)?);
    Ok(())
}

#[test]
fn words(rt: HostRuntime) -> Result<(), Fail> {
    let rows: [Row<'_>; 4] = [
        (b"", false, b"cd", 4),
        (b"cat", true, b"a", 4),
        (b"catalog", true, b"", 0),
        (b"dog", true, b"", 0),
    ];
    assert!(rt; has_rows(rt.alloc(), &[b"cat", b"catalog", b"dog"], &rows)?);
    Ok(())
}

#[test]
fn three_levels(rt: HostRuntime) -> Result<(), Fail> {
    let keys: [&[u8]; 6] = [b"x", b"xy\0", b"xy\x01", b"xy\x02", b"xy\x03", b"xy\x04"];
    let rows: [Row<'_>; 7] = [
        (b"x", true, b"y", 4),
        (b"xy", false, b"\0\x01\x02\x03\x04", 16),
        (b"xy\0", true, b"", 0),
        (b"xy\x01", true, b"", 0),
        (b"xy\x02", true, b"", 0),
        (b"xy\x03", true, b"", 0),
        (b"xy\x04", true, b"", 0),
    ];
    assert!(rt; has_rows(rt.alloc(), &keys, &rows)?);
    Ok(())
}

/// Whether the keys of one byte, for each of `bytes`, hang from a root of this capacity.
fn is_fan(alloc: Global, bytes: &[u8], capacity: usize) -> Result<bool, Fail> {
    let mut keys: Vec<&[u8]> = Vec::new(alloc);
    for i in 0..bytes.len() {
        keys.push(&bytes[i..i + 1])?;
    }
    if !are_ascending(&keys) {
        return Ok(false);
    }
    let shape = shape_of(alloc, &keys)?;
    let Some((root, leaves)) = shape.split_first() else {
        return Ok(false);
    };
    if !is_row(root, &(b"", false, bytes, capacity)) || leaves.len() != bytes.len() {
        return Ok(false);
    }
    for (leaf, key) in leaves.iter().zip(&keys) {
        if !is_row(leaf, &(*key, true, b"", 0)) {
            return Ok(false);
        }
    }
    Ok(true)
}

#[test]
fn one_byte_keys(rt: HostRuntime) -> Result<(), Fail> {
    let bytes: Vec<u8> = (0..=255u8).collect(rt.alloc())?;
    let fans = [
        (4, 4),
        (5, 16),
        (16, 16),
        (17, 48),
        (48, 48),
        (49, 256),
        (256, 256),
    ];
    for (count, capacity) in fans {
        let first = bytes.get(..count).ok_or("too few bytes")?;
        assert!(rt; is_fan(rt.alloc(), first, capacity)?, "{count}");
    }
    Ok(())
}

#[test]
fn single_records(rt: HostRuntime) -> Result<(), Fail> {
    let keys: [&[u8]; 3] = [b"cat", b"catalog", b"dog"];
    for path in [b"c".as_slice(), b"ca", b"cata", b"dogs", b"e"] {
        assert_eq!(rt; record_at(rt.alloc(), &keys, path)?, None);
    }
    let root = record_at(rt.alloc(), &keys, b"")?.ok_or("no record")?;
    assert!(rt; is_row(&root, &(b"", false, b"cd", 4)));
    Ok(())
}
