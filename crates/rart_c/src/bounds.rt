//! Bounds of a range, as C passes them: a kind and a key.
ghost use Rattle.std.specs.Prelude.{◌≡◌};
ghost use Rattle.rart_c.specs.Bounds.{bound_fault};

/// No bound; the key is ignored.
pub(crate) const UNBOUNDED: u8 = 0;

/// The key itself is within the range.
pub(crate) const INCLUDED: u8 = 1;

/// The key itself is not within the range.
pub(crate) const EXCLUDED: u8 = 2;

/// Why a bound is none.
#[derive(Clone, Copy, Drop)]
pub(crate) enum BoundFault {
    KeyTooLong,
    BadKind,
}

/// Returns what is wrong with a bound of this kind at a key of `len` bytes, in a map whose keys have at most `width`.
pub(crate) fn fault_of(width: usize, kind: u8, len: usize) -> Option<BoundFault>
    ensures { result ≡ bound_fault width kind len }
{
    match kind {
        UNBOUNDED => None,
        INCLUDED | EXCLUDED => {
            if width < len {
                Some(BoundFault::KeyTooLong)
            } else {
                None
            }
        }
        _ => Some(BoundFault::BadKind),
    }
}
