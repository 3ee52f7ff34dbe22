//! The length of a part, in two bytes beside its array.

// Two bytes leave room for the keys of four children in a node of 24 bytes, and count the bytes of any array below
// 64 KiB. In a larger one the end of the part is marked in the array itself.

ghost use Rattle.std.specs.Prelude.{◌≡◌, ◌-◌, ◌≤◌, drop, length, replicate, take};
ghost use Rattle.rart_keys.specs.KeyBytes.{AreBytes};
ghost use Rattle.rart_keys.specs.PartLengths.{marked_length, part_length};

// The greatest length that two bytes hold.
const MOST: usize = u16::MAX as usize;

// What follows a part that doesn't fill a larger array. Zeros follow it.
const MARK: u8 = 1;

/// Returns the length of the part in `stored`, by its code.
#[inline(always)]
pub(crate) fn part_length<const SIZE: usize>(stored: &[u8; SIZE], code: u16) -> usize
    ensures { result ≡ part_length SIZE stored.now code }
{
    if SIZE <= MOST {
        code as usize
    } else if code == 0 {
        SIZE
    } else {
        marked_length(stored.as_slice())
    }
}

/// Returns the code of `len`, the length of the part at the front of `stored`, which has zeros after it. In a larger
/// array it marks the end of the part.
#[inline(always)]
pub(crate) fn mark_length<const SIZE: usize>(stored: &mut [u8; SIZE], len: usize) -> u16
    requires within { len ≤ SIZE }
    requires zeros { drop len stored.old ≡ replicate (SIZE - len) 0 }
    requires are_bytes { AreBytes stored.old }
    ensures length { part_length SIZE stored.new result ≡ len }
    ensures part { take len stored.new ≡ take len stored.old }
    ensures full_width { length stored.new ≡ SIZE }
    ensures are_bytes { AreBytes stored.new }
{
    if SIZE <= MOST {
        return len as u16;
    }
    if len == SIZE {
        return 0;
    }
    stored[len] = MARK;
    1
}

/// Returns the number of bytes before the last one that isn't zero.
fn marked_length(stored: &[u8]) -> usize
    ensures { result ≡ marked_length stored.now }
{
    let mut end = stored.len();
    while end > 0 {
        end -= 1;
        if stored[end] != 0 {
            return end;
        }
    }
    0
}
