//! A route table as `{:?}` prints a map.

use crate::routes::RouteTable;
use rart_keys::KeyTrait;
use std::fmt;

/// Writes the routes as those of a map: `{prefix: target, ..}`, ascending by prefix, as the tree of the table writes
/// its pairs.
impl<K: KeyTrait + fmt::Debug + Drop, T: fmt::Debug> fmt::Debug for RouteTable<K, T> {
    fn fmt<W: fmt::Write>(&self, f: &mut fmt::Formatter<W>) -> fmt::Result {
        fmt::Debug::fmt(&self.routes, f)
    }
}
