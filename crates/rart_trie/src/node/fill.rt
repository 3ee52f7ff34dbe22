//! The write to a place that holds nothing, which drops nothing.
ghost use Rattle.std.specs.Prelude.{◌≡◌, None};

use std::mem;

/// Writes `value` to `place`, which is `None`.
pub(crate) fn fill<V>(place: &mut Option<V>, value: Option<V>)
    requires { place.old ≡ None }
    ensures { place.new ≡ value }
{
    match mem::replace(place, value) {
        Some(_) => unreachable!(),
        None => {}
    }
}
