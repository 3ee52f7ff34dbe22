//! A tree as `{:?}` prints a map.

use crate::tree::AdaptiveRadixTree;
use rart_keys::KeyTrait;
use std::fmt;

/// Writes the pairs as those of a map: `{key: value, ..}`, ascending by key. It allocates as an iterator does; if that
/// fails, so does the writing.
impl<K: KeyTrait + fmt::Debug + Drop, V: fmt::Debug> fmt::Debug for AdaptiveRadixTree<K, V> {
    fn fmt<W: fmt::Write>(&self, f: &mut fmt::Formatter<W>) -> fmt::Result {
        let Ok(mut pairs) = self.iter() else {
            return Err(fmt::Error);
        };
        let mut map = f.debug_map();
        while let Some((key, value)) = pairs.next() {
            map.entry(&key, value);
        }
        map.finish()
    }
}
