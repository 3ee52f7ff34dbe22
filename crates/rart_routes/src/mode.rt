//! What a malformed line does to a run, as the program's arguments say.
ghost use Rattle.std.specs.Prelude.{◌≡◌, ◌≤◌, codes, [], ◌∷◌, ◌++◌};
ghost use Rattle.std.specs.Io.KnownBytes.{Appends};

use std::env::{Env, FillError};
use std::io::Write;

/// What a malformed line does to a run.
#[derive(Clone, Copy)]
pub enum Mode {
    /// The line ends the run.
    EndAtBad,
    /// The line is reported, and the run continues.
    KeepGoing,
}

/// Returns the mode that the program's arguments name; `None` if one is not `--keep-going`.
///
/// It allocates nothing.
pub fn read_mode<R: Env>(rt: &R) -> Option<Mode> {
    let mut mode = Mode::EndAtBad;
    for at in 1..usize::MAX {
        // Longer than the one argument that is known.
        let mut argument = [0; 16];
        match rt.arg(at, &mut argument) {
            Ok(len) if &argument[..len] == b"--keep-going".as_slice() => mode = Mode::KeepGoing,
            Ok(_) | Err(FillError::TooLong) => return None,
            Err(FillError::NotPresent) => break,
        }
    }
    Some(mode)
}

/// Writes that an argument is not known, and returns the status for the process.
pub fn refuse_arguments<E: Write>(errors: &mut E) -> u8
    ensures status { result ≤ 2 }
    ensures message { result ≡ 2 → Appends (E.contents errors.old) (E.contents errors.new)
        (codes "rart_routes: bad argument: the only one is --keep-going" ++ 10 ∷ []) }
{
    match writeln!(
        errors,
        "rart_routes: bad argument: the only one is --keep-going"
    ) {
        Ok(()) => 2,
        Err(_) => 1,
    }
}
