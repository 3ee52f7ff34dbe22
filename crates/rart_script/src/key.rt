//! The keys of a script.
ghost use Rattle.std.specs.Prelude.{◌≡◌};
ghost use Rattle.std.specs.Option.{option_map};
ghost use Rattle.rart_keys.specs.ArrayKeyBytes.{array_key_bytes};
ghost use Rattle.rart_script.specs.Key.{key_of};

use rart::{ArrayKey, KeyTrait};

/// The largest number of bytes of a key.
pub const KEY_SIZE: usize = 32;

/// A key of a script.
pub type Key = ArrayKey<KEY_SIZE>;

/// Returns the key that a word writes: its bytes as they are, or no bytes for `-`; `None` if the word has more bytes
/// than a key may have.
pub fn parse_key(word: &[u8]) -> Option<Key>
    ensures { option_map array_key_bytes result ≡ key_of word.now }
{
    if word == b"-".as_slice() {
        return Some(Key::new_from_slice(&[]));
    }
    if word.len() > KEY_SIZE {
        return None;
    }
    Some(Key::new_from_slice(word))
}
