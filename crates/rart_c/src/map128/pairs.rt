//! Pairs as C reads them, and batches of them.
ghost use Rattle.std.specs.Prelude.{◌≡◌, ℕ, List};
ghost use Rattle.std.specs.Iterator.{AlwaysYields, IsFinite};
ghost use Rattle.rart_keys.specs.ArrayKeyBytes.{array_key_bytes};
ghost use Rattle.rart_c.specs.Batches.{IsBatch};
ghost use Rattle.rart_c.specs.Pairs128.{pair_in};

use rart_keys::ArrayKey;

/// A pair: the first `len` bytes of `key` are the key. The others are zero where a call wrote the pair.
#[repr(C)]
#[derive(Clone, Copy, Drop)]
pub struct Rart128Pair {
    pub key: [u8; 128],
    pub len: usize,
    pub value: u64,
}

pub(crate) fn pair_of(key: &ArrayKey<128>, value: u64) -> Rart128Pair
    ensures { pair_in result ≡ (array_key_bytes key.now, value) }
{
    Rart128Pair {
        key: *key.as_array(),
        len: key.as_slice().len(),
        value,
    }
}

/// Writes the pairs that `walk` yields to the front of `out`, as many as fit.
pub(crate) fn write_batch<'a, I: Iterator<Item = (ArrayKey<128>, &'a u64)> + Drop>(
    walk: I,
    out: &mut [Rart128Pair],
    written: &mut usize,
    more: &mut bool,
)
    requires can { I.can_next walk }
    requires ends { IsFinite (I.remaining walk) }
    ensures { (all : List (List ℕ × ℕ))
        → AlwaysYields I.next_gives (λ p. (array_key_bytes p.0, p.1.now)) walk all
        → IsBatch pair_in all out.old out.new written.new more.new }
{
    let mut number: usize = 0;
    let mut is_full = false;
    for (key, value) in walk {
        if number == out.len() {
            is_full = true;
            break;
        }
        out[number] = pair_of(&key, *value);
        number += 1;
    }
    *written = number;
    *more = is_full;
}
