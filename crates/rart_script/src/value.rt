//! Values: numbers in decimal digits.
ghost use Rattle.std.specs.Prelude.{◌≡◌};
ghost use Rattle.rart_script.specs.Value.{value_of};

/// Returns the number that a word of one or more digits writes, if it fits a value.
pub fn parse_value(word: &[u8]) -> Option<u64>
    ensures { result ≡ value_of word.now }
{
    if word.is_empty() {
        return None;
    }
    let mut value: u64 = 0;
    for byte in word {
        if !byte.is_ascii_digit() {
            return None;
        }
        let digit = u64::from(*byte - b'0');
        value = value.checked_mul(10)?.checked_add(digit)?;
    }
    Some(value)
}
