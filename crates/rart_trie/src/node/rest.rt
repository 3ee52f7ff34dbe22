//! The step of each descent: the rest of a key after a node's prefix.
ghost use Rattle.std.specs.Prelude.{◌≡◌};
ghost use Rattle.std.specs.Option.{option_copied};
ghost use Rattle.rart_keys.specs.ByteStrings.{strip_prefix};

use rart_keys::Partial;

/// Returns the bytes of `key` after `prefix`, or `None` if the prefix does not begin the key.
pub fn strip_prefix<'a, P: Partial>(prefix: &P, key: &'a [u8]) -> Option<&'a [u8]>
    ensures { option_copied result ≡ strip_prefix (P.bytes prefix.now) key.now }
{
    rart_keys::strip_prefix(prefix.to_slice(), key)
}
