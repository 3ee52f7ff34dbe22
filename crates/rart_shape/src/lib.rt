//! The shape of a set of keys, computed from its definition.

// The shape has a record for each key and each string after which the keys have two or more different next bytes. The
// functions scan all keys for each result; they are slow and serve tests.

#![tactic(auto)]

ghost use Rattle.std.specs.Prelude.{◌≡◌, ◌↔◌, IfErr, IfOk, IsTrue, None, OnOk, Some};
ghost use Rattle.rart_parts.specs.Errors.{IsMemory};
ghost use Rattle.rart_keys.specs.ByteStrings.{byte_after};
ghost use Rattle.rart_keys.specs.SortedMap.{IsAscending, put};
ghost use Rattle.rart_trie.specs.shapes.Shape.{HasShape, capacity_of, contains_key, next_bytes, record_at};
ghost use Rattle.rart_shape.specs.ShapeRecords.{IsRecordAt, node_record, put_some, records_of};
ghost use Rattle.rart_trie.specs.shapes.KeyLists.{keys_in, unit_pairs};

use rart_parts::TreeError;
use std::alloc::Global;
use std::cmp::Ordering;

/// Describes one string of a shape.
#[derive(Debug, Drop, Eq, PartialEq)]
pub struct ShapeRecord {
    /// The string.
    pub path: Vec<u8>,
    /// Says whether the string is a key.
    pub holds_value: bool,
    /// Lists the next bytes of the keys after the string, ascending.
    pub edges: Vec<u8>,
    /// The capacity of its node: 0, 4, 16, 48 or 256.
    pub capacity: usize,
}

/// Returns the capacity of a node with `count` children: the least of 0, 4, 16, 48 and 256 that holds them.
pub fn capacity_of(count: usize) -> usize
    ensures { result ≡ capacity_of count }
{
    if count == 0 {
        0
    } else if count <= 4 {
        4
    } else if count <= 16 {
        16
    } else if count <= 48 {
        48
    } else {
        256
    }
}

/// Returns the byte of `key` after `path`, if `path` is a proper prefix of it.
fn byte_after(path: &[u8], key: &[u8]) -> Option<u8>
    ensures { result ≡ byte_after path.now key.now }
{
    let rest = key.strip_prefix(path)?;
    rest.first().copied()
}

/// Returns whether `path` is one of the keys.
fn contains_key(keys: &[&[u8]], path: &[u8]) -> bool
    ensures { result ≡ contains_key (keys_in keys.now) path.now }
{
    for key in keys {
        if *key == path {
            return true;
        }
    }
    false
}

/// Returns the bytes of the keys after `path`, each once if the keys ascend.
fn next_bytes(alloc: Global, keys: &[&[u8]], path: &[u8]) -> Result<Vec<u8>, TreeError>
    ensures bytes { IfOk result (λ v. v.items ≡ next_bytes (keys_in keys.now) path.now) }
    ensures memory { IfErr result IsMemory }
{
    let mut bytes = Vec::new(alloc);
    for key in keys {
        let Some(byte) = byte_after(path, key) else {
            continue;
        };
        if bytes.last().copied() != Some(byte) {
            let Ok(()) = bytes.push(byte) else {
                return Err(TreeError::Memory);
            };
        }
    }
    Ok(bytes)
}

/// Returns the record of the shape of `keys` at `path`, or `None` if the shape has none.
///
/// # Errors
///
/// [`TreeError::Memory`] if an allocation fails.
pub fn record_at(
    alloc: Global,
    keys: &[&[u8]],
    path: &[u8],
) -> Result<Option<ShapeRecord>, TreeError>
    ensures record { IfOk result (IsRecordAt (keys_in keys.now) path.now) }
    ensures memory { IfErr result IsMemory }
{
    let holds_value = contains_key(keys, path);
    let edges = next_bytes(alloc, keys, path)?;
    if !holds_value && edges.len() < 2 {
        return Ok(None);
    }
    let Ok(path) = path.to_vec(alloc) else {
        return Err(TreeError::Memory);
    };
    let capacity = capacity_of(edges.len());
    Ok(Some(ShapeRecord {
        path,
        holds_value,
        edges,
        capacity,
    }))
}

/// Inserts a record in the order of paths, or replaces the one of its path.
fn put_record(records: &mut Vec<ShapeRecord>, added: ShapeRecord) -> Result<(), TreeError>
    ensures put { OnOk result (records_of records.new.items
        ≡ put added.path.items (node_record added) (records_of records.old.items)) }
    ensures memory { IfErr result IsMemory }
{
    for i in 0..records.len() {
        match added.path.as_slice().cmp(records[i].path.as_slice()) {
            Ordering::Less => {
                let Ok(()) = records.insert(i, added) else {
                    return Err(TreeError::Memory);
                };
                return Ok(());
            }
            Ordering::Equal => {
                records[i] = added;
                return Ok(());
            }
            Ordering::Greater => {}
        }
    }
    let Ok(()) = records.push(added) else {
        return Err(TreeError::Memory);
    };
    Ok(())
}

/// Inserts the record of the shape of `keys` at `path`, if there is one.
fn put_record_at(
    alloc: Global,
    keys: &[&[u8]],
    path: &[u8],
    records: &mut Vec<ShapeRecord>,
) -> Result<(), TreeError>
    ensures put { OnOk result (records_of records.new.items
        ≡ put_some path.now (record_at (keys_in keys.now) path.now)
        (records_of records.old.items)) }
    ensures memory { IfErr result IsMemory }
{
    match record_at(alloc, keys, path)? {
        Some(found) => put_record(records, found),
        None => Ok(()),
    }
}

/// Returns whether each key is less than the next. `shape_of` requires this.
pub fn are_ascending(keys: &[&[u8]]) -> bool
    ensures { IsTrue result ↔ IsAscending (unit_pairs (keys_in keys.now)) }
{
    for i in 1..keys.len() {
        let Ordering::Less = keys[i - 1].cmp(keys[i]) else {
            return false;
        };
    }
    true
}

/// Returns the shape of strictly ascending keys: the record of each branch point, ascending by path.
///
/// # Errors
///
/// [`TreeError::Memory`] if an allocation fails.
pub fn shape_of(alloc: Global, keys: &[&[u8]]) -> Result<Vec<ShapeRecord>, TreeError>
    requires { IsAscending (unit_pairs (keys_in keys.now)) }
    ensures shape { IfOk result (λ v. HasShape (keys_in keys.now) (records_of v.items)) }
    ensures memory { IfErr result IsMemory }
{
    let mut records = Vec::new(alloc);
    'keys: for key in keys {
        'lengths: for length in 0..=key.len() {
            put_record_at(alloc, keys, &key[..length], &mut records)?;
        }
    }
    Ok(records)
}
