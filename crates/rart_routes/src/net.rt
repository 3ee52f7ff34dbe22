//! Networks of either version of IP.
ghost use Rattle.rart_routes.specs.Net.{IsHost, IsNet, IsNetOf6, IsWithLen};

use rart_cidr::{Cidr4, Cidr6, ParseCidrError};
use std::fmt;
use std::net::IpAddr;

/// A network of either version of IP.
#[derive(Clone, Copy)]
pub enum Net {
    V4(Cidr4),
    V6(Cidr6),
}

/// Returns the network that a word writes: an address, which is a host, or an address with a length.
///
/// # Errors
///
/// What is wrong with the word, as the first error that applies.
pub fn parse_net(word: &[u8]) -> Result<Net, ParseCidrError>
    ensures { IsNet word.now result }
{
    match IpAddr::parse_ascii(word) {
        Ok(addr) => Ok(host(addr)),
        Err(_) => parse_with_len(word),
    }
}

// Returns the network of an address alone.
fn host(addr: IpAddr) -> Net
    ensures { IsHost addr result }
{
    match addr {
        IpAddr::V4(addr) => Net::V4(Cidr4::host(addr)),
        IpAddr::V6(addr) => Net::V6(Cidr6::host(addr)),
    }
}

// Returns the network that an address and a length write.
fn parse_with_len(word: &[u8]) -> Result<Net, ParseCidrError>
    ensures { IsWithLen word.now result }
{
    match Cidr4::parse_ascii(word) {
        Ok(net) => Ok(Net::V4(net)),
        Err(ParseCidrError::Address) => parse6(word),
        Err(ParseCidrError::Length) => Err(ParseCidrError::Length),
        Err(ParseCidrError::HostBits) => Err(ParseCidrError::HostBits),
    }
}

fn parse6(word: &[u8]) -> Result<Net, ParseCidrError>
    ensures { IsNetOf6 word.now result }
{
    match Cidr6::parse_ascii(word) {
        Ok(net) => Ok(Net::V6(net)),
        Err(error) => Err(error),
    }
}

impl fmt::Display for Net {
    ghost use Rattle.std.specs.Prelude.{Some};
    ghost use Rattle.rart_routes.specs.Net.{net_text};

    ghost output = { λ net. Some (net_text net) };

    fn fmt<W: fmt::Write>(&self, f: &mut fmt::Formatter<W>) -> fmt::Result {
        match self {
            Net::V4(net) => write!(f, "{net}"),
            Net::V6(net) => write!(f, "{net}"),
        }
    }
}
