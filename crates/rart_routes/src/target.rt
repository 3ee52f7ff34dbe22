//! The targets of routes.
ghost use Rattle.std.specs.Prelude.{◌≡◌, ◌<◌, ◌≤◌, length, MatchOption};
ghost use Rattle.rart_keys.specs.ArrayKeyBytes.{array_key_bytes};

use rart::{ArrayKey, KeyTrait};

/// The largest number of bytes of a target.
pub const TARGET_SIZE: usize = 32;

/// A target: the bytes of a word.
pub type Target = ArrayKey<TARGET_SIZE>;

/// Returns the target that a word writes; `None` if the word has more bytes than a target may have.
pub fn parse_target(word: &[u8]) -> Option<Target>
    ensures { MatchOption result (TARGET_SIZE < length word.now)
        (λ t. (array_key_bytes t ≡ word.now) × (length word.now ≤ TARGET_SIZE)) }
{
    if word.len() > TARGET_SIZE {
        return None;
    }
    Some(Target::new_from_slice(word))
}
