//! Why an address and a length are no network.

use std::fmt;

/// Why an address and a length aren't a network.
#[derive(Clone, Copy, PartialEq, Eq, Debug)]
pub enum CidrError {
    /// The address has fewer bits.
    Length,
    /// A bit after the first ones, which are the network's, is set.
    HostBits,
}

impl fmt::Display for CidrError {
    ghost use Rattle.std.specs.Prelude.{Some};
    ghost use Rattle.rart_cidr.specs.Texts.{error_text};

    ghost output = { λ error. Some (error_text error) };

    fn fmt<W: fmt::Write>(&self, f: &mut fmt::Formatter<W>) -> fmt::Result {
        match self {
            CidrError::Length => f.write_str("bad length"),
            CidrError::HostBits => f.write_str("host bits set"),
        }
    }
}

impl std::error::Error for CidrError {}
