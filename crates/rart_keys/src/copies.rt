//! Copies of short byte strings, which need no call.
ghost use Rattle.std.specs.Prelude.{◌≡◌, ◌+◌, ◌≤◌, length};

/// Copies `from` to `to`, which must be as long. Up to 32 bytes are copied as two parts of constant length, which may
/// overlap. It does not allocate.
#[inline(always)]
pub fn copy_bytes(to: &mut [u8], from: &[u8])
    requires { length to.old ≡ length from.now }
    ensures { to.new ≡ from.now }
{
    match from.len() {
        0 => {}
        1 => copy_ends::<1>(to, from),
        2..=3 => copy_ends::<2>(to, from),
        4..=7 => copy_ends::<4>(to, from),
        8..=16 => copy_ends::<8>(to, from),
        17..=32 => copy_ends::<16>(to, from),
        _ => to.copy_from_slice(from),
    }
}

// The first W bytes and the last W.
#[inline(always)]
fn copy_ends<const W: usize>(to: &mut [u8], from: &[u8])
    requires same_length { length to.old ≡ length from.now }
    requires wide { W ≤ length from.now }
    requires covered { length from.now ≤ W + W }
    ensures { to.new ≡ from.now }
{
    let last = from.len() - W;
    to[..W].copy_from_slice(&from[..W]);
    to[last..last + W].copy_from_slice(&from[last..last + W]);
}
