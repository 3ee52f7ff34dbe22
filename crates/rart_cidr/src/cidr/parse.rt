//! Networks read from text.
ghost use Rattle.std.specs.Prelude.{◌≡◌, ◌≢◌, ◌<◌, ◌^◌, ℕ, decimal, position, MatchOption};
ghost use Rattle.std.specs.Option.{option_copied};
ghost use Rattle.rart_cidr.specs.Texts.{address_part, is_slash, length_part};

use crate::cidr::{Cidr, Cidr4, Cidr6, CidrError};
use std::net::{Ipv4Addr, Ipv6Addr};
use std::str::FromStr;
use std::{fmt, str};

/// Why a text isn't a network.
#[derive(Clone, Copy, PartialEq, Eq, Debug)]
pub enum ParseCidrError {
    /// The text before the slash isn't an address.
    Address,
    /// No slash with a decimal length follows, or the address has fewer bits. The length has no leading zero.
    Length,
    /// A bit of the address after the network's is set.
    HostBits,
}

impl fmt::Display for ParseCidrError {
    ghost use Rattle.std.specs.Prelude.{Some};
    ghost use Rattle.rart_cidr.specs.Texts.{parse_error_text};

    ghost output = { λ error. Some (parse_error_text error) };

    fn fmt<W: fmt::Write>(&self, f: &mut fmt::Formatter<W>) -> fmt::Result {
        match self {
            ParseCidrError::Address => f.write_str("bad address"),
            ParseCidrError::Length => f.write_str("bad length"),
            ParseCidrError::HostBits => f.write_str("host bits set"),
        }
    }
}

impl std::error::Error for ParseCidrError {}

// Returns the text before the first slash and after it; the whole text and `None` without a slash.
fn split_text(text: &[u8]) -> (&[u8], Option<&[u8]>)
    ensures address { result.0.now ≡ address_part text.now }
    ensures length { option_copied result.1 ≡ length_part text.now }
{
    match slash(text) {
        Some(at) => (&text[..at], Some(&text[at + 1..])),
        None => (text, None),
    }
}

// Returns the position of the first slash.
fn slash(text: &[u8]) -> Option<usize>
    ensures { result ≡ position is_slash text.now }
{
    text.iter().position(|byte| *byte == b'/')
}

// Returns the number whose decimal digits these are.
fn parse_len(digits: &[u8]) -> Option<u8>
    ensures { MatchOption result
        ((n : ℕ) → n < 2 ^ 8 → digits.now ≢ decimal n) (λ n. digits.now ≡ decimal n) }
{
    // A number has no sign, and no leading zero.
    if digits.len() > 1 && digits[0] <= b'0' {
        return None;
    }
    let Ok(digits) = str::from_utf8(digits) else {
        return None;
    };
    match digits.parse::<u8>() {
        Ok(len) => Some(len),
        Err(_) => None,
    }
}

impl Cidr<4> {
    ghost use Rattle.std.specs.Prelude.{◌≡◌, length};
    ghost use Rattle.std.specs.Net.Addr.{ipv4_octets};
    ghost use Rattle.std.specs.Net.Grammar.{IsIpv4Text};
    ghost use Rattle.rart_cidr.specs.Bits.{bits_of};
    ghost use Rattle.rart_cidr.specs.Networks.{cidr_bits};
    ghost use Rattle.rart_cidr.specs.Texts.{IsParsed};

    /// Returns the network that ASCII bytes write: an address, a slash, and a length, as `10.16.0.0/12`.
    ///
    /// # Errors
    ///
    /// The first that applies of [`ParseCidrError::Address`], [`ParseCidrError::Length`] and
    /// [`ParseCidrError::HostBits`]. A host's text has `/32` too.
    pub fn parse_ascii(text: &[u8]) -> Result<Cidr4, ParseCidrError>
        ensures { IsParsed IsIpv4Text (λ a. bits_of (ipv4_octets a)) cidr_bits text.now result }
    {
        let (address, length) = split_text(text);
        let Ok(addr) = Ipv4Addr::parse_ascii(address) else {
            return Err(ParseCidrError::Address);
        };
        Cidr4::has_width(addr);
        let Some(digits) = length else {
            return Err(ParseCidrError::Length);
        };
        let Some(len) = parse_len(digits) else {
            return Err(ParseCidrError::Length);
        };
        match Cidr4::new(addr, len) {
            Ok(net) => Ok(net),
            Err(CidrError::Length) => Err(ParseCidrError::Length),
            Err(CidrError::HostBits) => Err(ParseCidrError::HostBits),
        }
    }

    // Shows how many bits an address has. Does nothing at run time.
    fn has_width(addr: Ipv4Addr)
        ensures { length (bits_of (ipv4_octets addr)) ≡ 32 }
    {
        let _net = Cidr4::masked(addr, 0);
    }
}

impl FromStr for Cidr<4> {
    ghost use Rattle.std.specs.Net.Addr.{ipv4_octets};
    ghost use Rattle.std.specs.Net.Grammar.{IsIpv4Text};
    ghost use Rattle.rart_cidr.specs.Bits.{bits_of};
    ghost use Rattle.rart_cidr.specs.Networks.{cidr_bits};
    ghost use Rattle.rart_cidr.specs.Texts.{IsParsed};

    type Err = ParseCidrError;

    ghost from_str_gives = { IsParsed IsIpv4Text (λ a. bits_of (ipv4_octets a)) cidr_bits };

    fn from_str(s: &str) -> Result<Cidr4, ParseCidrError> {
        Cidr4::parse_ascii(s.as_bytes())
    }
}

impl Cidr<16> {
    ghost use Rattle.std.specs.Prelude.{◌≡◌, length};
    ghost use Rattle.std.specs.Net.Addr.{ipv6_octets};
    ghost use Rattle.std.specs.Net.Grammar.{IsIpv6Text};
    ghost use Rattle.rart_cidr.specs.Bits.{bits_of};
    ghost use Rattle.rart_cidr.specs.Networks.{cidr_bits};
    ghost use Rattle.rart_cidr.specs.Texts.{IsParsed};

    /// Returns the network that ASCII bytes write: an address, a slash, and a length, as `2001:db8::/32`.
    ///
    /// # Errors
    ///
    /// The first that applies of [`ParseCidrError::Address`], [`ParseCidrError::Length`] and
    /// [`ParseCidrError::HostBits`]. A host's text has `/128` too.
    pub fn parse_ascii(text: &[u8]) -> Result<Cidr6, ParseCidrError>
        ensures { IsParsed IsIpv6Text (λ a. bits_of (ipv6_octets a)) cidr_bits text.now result }
    {
        let (address, length) = split_text(text);
        let Ok(addr) = Ipv6Addr::parse_ascii(address) else {
            return Err(ParseCidrError::Address);
        };
        Cidr6::has_width(addr);
        let Some(digits) = length else {
            return Err(ParseCidrError::Length);
        };
        let Some(len) = parse_len(digits) else {
            return Err(ParseCidrError::Length);
        };
        match Cidr6::new(addr, len) {
            Ok(net) => Ok(net),
            Err(CidrError::Length) => Err(ParseCidrError::Length),
            Err(CidrError::HostBits) => Err(ParseCidrError::HostBits),
        }
    }

    // Shows how many bits an address has. Does nothing at run time.
    fn has_width(addr: Ipv6Addr)
        ensures { length (bits_of (ipv6_octets addr)) ≡ 128 }
    {
        let _net = Cidr6::masked(addr, 0);
    }
}

impl FromStr for Cidr<16> {
    ghost use Rattle.std.specs.Net.Addr.{ipv6_octets};
    ghost use Rattle.std.specs.Net.Grammar.{IsIpv6Text};
    ghost use Rattle.rart_cidr.specs.Bits.{bits_of};
    ghost use Rattle.rart_cidr.specs.Networks.{cidr_bits};
    ghost use Rattle.rart_cidr.specs.Texts.{IsParsed};

    type Err = ParseCidrError;

    ghost from_str_gives = { IsParsed IsIpv6Text (λ a. bits_of (ipv6_octets a)) cidr_bits };

    fn from_str(s: &str) -> Result<Cidr6, ParseCidrError> {
        Cidr6::parse_ascii(s.as_bytes())
    }
}
