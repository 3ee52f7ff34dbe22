//! What is wrong with a line, and why a script ends before its last line.
ghost use Rattle.std.specs.Prelude.{◌≡◌};
ghost use Rattle.rart_routes.specs.Stop.{status_of};

use rart_cidr::ParseCidrError;
use std::fmt;

/// What is wrong with a line.
#[derive(Clone, Copy, Debug, PartialEq, Eq)]
pub enum LineError {
    /// Its words are no command.
    Command,
    /// A word should write a network or an address, and doesn't.
    Network(ParseCidrError),
    /// The word for a target has more bytes than a target may have.
    Target,
}

/// Why a script ends before its last line.
#[derive(Clone, Copy, Debug, PartialEq, Eq)]
pub enum Stop {
    /// The line of this number, counted from 1, is malformed.
    BadLine { line: usize, error: LineError },
    /// The input can't be read.
    CannotRead,
    /// The output can't be written.
    CannotWrite,
}

impl Stop {
    /// Returns the status that the program ends with.
    pub fn status(self) -> u8
        ensures { result ≡ status_of self }
    {
        match self {
            Stop::BadLine { line: _, error: _ } => 2,
            Stop::CannotRead | Stop::CannotWrite => 1,
        }
    }
}

impl fmt::Display for LineError {
    ghost use Rattle.std.specs.Prelude.{Some};
    ghost use Rattle.rart_routes.specs.Stop.{error_text};

    ghost output = { λ error. Some (error_text error) };

    fn fmt<W: fmt::Write>(&self, f: &mut fmt::Formatter<W>) -> fmt::Result {
        match self {
            LineError::Command => write!(f, "bad command"),
            LineError::Network(error) => write!(f, "{error}"),
            LineError::Target => write!(f, "target too long"),
        }
    }
}

impl fmt::Display for Stop {
    ghost use Rattle.std.specs.Prelude.{Some};
    ghost use Rattle.rart_routes.specs.Stop.{message_of};

    ghost output = { λ stop. Some (message_of stop) };

    fn fmt<W: fmt::Write>(&self, f: &mut fmt::Formatter<W>) -> fmt::Result {
        match self {
            Stop::BadLine { line, error } => write!(f, "line {line}: {error}"),
            Stop::CannotRead => write!(f, "rart_routes: cannot read"),
            Stop::CannotWrite => write!(f, "rart_routes: cannot write"),
        }
    }
}
