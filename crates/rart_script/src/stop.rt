//! Why a script ends before its last line.
ghost use Rattle.std.specs.Prelude.{◌≡◌};
ghost use Rattle.rart_script.specs.Stop.{status_of};

use std::fmt;

/// Why a script ends before its last line.
#[derive(Clone, Copy, Debug, PartialEq, Eq)]
pub enum Stop {
    /// The line of this number, counted from 1, is no command.
    BadCommand { line: usize },
    /// The input can't be read.
    CannotRead,
    /// The output can't be written.
    CannotWrite,
}

impl Stop {
    /// Returns the status that the program ends with.
    pub fn status(self) -> u8
        ensures { result ≡ status_of self }
    {
        match self {
            Stop::BadCommand { line: _ } => 2,
            Stop::CannotRead | Stop::CannotWrite => 1,
        }
    }
}

impl fmt::Display for Stop {
    ghost use Rattle.std.specs.Prelude.{Some};
    ghost use Rattle.rart_script.specs.Stop.{message_of};

    ghost output = { λ stop. Some (message_of stop) };

    fn fmt<W: fmt::Write>(&self, f: &mut fmt::Formatter<W>) -> fmt::Result {
        match self {
            Stop::BadCommand { line } => write!(f, "line {line}: bad command"),
            Stop::CannotRead => write!(f, "rart_script: cannot read"),
            Stop::CannotWrite => write!(f, "rart_script: cannot write"),
        }
    }
}
