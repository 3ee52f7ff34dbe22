//! Arrays of fixed length that hold a shorter byte string and zeros.
ghost use Rattle.std.specs.Prelude.{◌≡◌, ◌+◌, ◌-◌, ◌≤◌, ◌++◌, length, replicate};

use crate::copies::copy_bytes;

/// Returns an array of `first`, `second` and zeros, in this order.
// Inline, as walks make each key by it.
#[inline(always)]
pub(crate) fn joined_bytes<const N: usize>(first: &[u8], second: &[u8]) -> [u8; N]
    requires { length first.now + length second.now ≤ N }
    ensures { result ≡ first.now ++ second.now
        ++ replicate (N - (length first.now + length second.now)) 0 }
{
    let mut bytes = [0; N];
    let middle = first.len();
    let end = middle + second.len();
    let places = &mut bytes[..];
    copy_bytes(&mut places[..middle], first);
    copy_bytes(&mut places[middle..end], second);
    bytes
}

/// Returns an array of zeros, `first` and `second`, in this order.
pub(crate) fn joined_at_end<const N: usize>(first: &[u8], second: &[u8]) -> [u8; N]
    requires { length first.now + length second.now ≤ N }
    ensures { result ≡ replicate (N - (length first.now + length second.now)) 0 ++ first.now
        ++ second.now }
{
    let mut bytes = [0; N];
    let start = N - (first.len() + second.len());
    let middle = start + first.len();
    let places = &mut bytes[..];
    copy_bytes(&mut places[start..middle], first);
    copy_bytes(&mut places[middle..], second);
    bytes
}
