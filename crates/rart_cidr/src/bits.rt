//! The first bits of a byte, and of some octets.
ghost use Rattle.std.specs.Prelude.{◌≡◌, ◌<◌, ◌≤◌, length};
ghost use Rattle.rart_keys.specs.KeyBytes.{AreBytes};
ghost use Rattle.rart_cidr.specs.Bits.{masked_octets, code, masked_byte};
ghost use Rattle.rart_cidr.specs.Codes.{byte_of_code, code_place, length_of_code, next_code};

/// Returns the code of the first `bits` bits of `byte`: a one, followed by these bits.
pub fn code_of(byte: u8, bits: usize) -> u8
    requires { bits < 8 }
    ensures value { result ≡ code byte bits }
    ensures least { 1 ≤ result }
{
    match bits {
        0 => 1,
        1 => 2 + byte / 128,
        2 => 4 + byte / 64,
        3 => 8 + byte / 32,
        4 => 16 + byte / 16,
        5 => 32 + byte / 8,
        6 => 64 + byte / 4,
        _ => 128 + byte / 2,
    }
}

/// Returns the next code in the order of their bits, or 0 after the last.
pub fn code_after(code: u8) -> u8
    ensures { result ≡ next_code code }
{
    if code < 128 {
        2 * code
    } else if code % 2 == 0 {
        code + 1
    } else if code % 4 == 1 {
        code / 2 + 1
    } else if code % 8 == 3 {
        code / 4 + 1
    } else if code % 16 == 7 {
        code / 8 + 1
    } else if code % 32 == 15 {
        code / 16 + 1
    } else if code % 64 == 31 {
        code / 32 + 1
    } else if code % 128 == 63 {
        code / 64 + 1
    } else {
        0
    }
}

/// Returns the number of bits that `code` encodes.
pub fn code_len(code: u8) -> u8
    ensures { result ≡ length_of_code code }
{
    if code < 2 {
        0
    } else if code < 4 {
        1
    } else if code < 8 {
        2
    } else if code < 16 {
        3
    } else if code < 32 {
        4
    } else if code < 64 {
        5
    } else if code < 128 {
        6
    } else {
        7
    }
}

/// Returns the byte that begins with the bits that `code` encodes, followed by zeros.
pub fn code_byte(code: u8) -> u8
    ensures { result ≡ byte_of_code code }
{
    if code < 2 {
        0
    } else if code < 4 {
        code % 2 * 128
    } else if code < 8 {
        code % 4 * 64
    } else if code < 16 {
        code % 8 * 32
    } else if code < 32 {
        code % 16 * 16
    } else if code < 64 {
        code % 32 * 8
    } else if code < 128 {
        code % 64 * 4
    } else {
        code % 128 * 2
    }
}

/// Returns how many codes come before `code` in the order of their bits.
pub fn place_of(code: u8) -> usize
    requires { 1 ≤ code }
    ensures value { result ≡ code_place code }
    ensures byte { code < 256 }
{
    // A zero is after the list that ends before it. A one is also after those with a zero in its place: as many as its
    // value in the byte.
    usize::from(code_byte(code)) + usize::from(code_len(code)) + 1 - code.count_ones() as usize
}

/// Returns `byte` with all but its first `bits` bits cleared.
pub fn keep_bits(byte: u8, bits: usize) -> u8
    ensures { result ≡ masked_byte byte bits }
{
    match bits {
        0 => 0,
        1 => byte / 128 * 128,
        2 => byte / 64 * 64,
        3 => byte / 32 * 32,
        4 => byte / 16 * 16,
        5 => byte / 8 * 8,
        6 => byte / 4 * 4,
        7 => byte / 2 * 2,
        _ => byte,
    }
}

/// Clears all but the first `bits` bits of `octets`.
pub fn clear_after(octets: &mut [u8], bits: usize)
    requires { length octets.old ≤ 16 }
    ensures { octets.new ≡ masked_octets octets.old bits }
{
    for at in 0..octets.len() {
        octets[at] = keep_bits(octets[at], bits.saturating_sub(8 * at));
    }
}

/// Proves that octets are bytes. Does nothing at run time.
pub fn are_bytes(octets: &[u8])
    ensures { AreBytes octets.now }
{}
