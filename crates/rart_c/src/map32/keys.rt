//! Keys and bounds from bytes.
ghost use Rattle.std.specs.Prelude.{◌≡◌, ◌<◌, ◌≤◌, length, None, Some, IfErr, IfNone, IfOk, IfSome};
ghost use Rattle.rart_keys.specs.ArrayKeyBytes.{array_key_bytes};
ghost use Rattle.rart_keys.specs.Ranges.{bound_in};
ghost use Rattle.rart_c.specs.Bounds.{bound_fault, bound_of};

use crate::bounds::{BoundFault, EXCLUDED, INCLUDED, fault_of};
use rart::{ArrayKey, KeyTrait};
use std::ops::Bound;

/// The most bytes of a key.
pub(crate) const WIDTH: usize = 32;

/// Returns the key with these bytes, if they are not too many.
pub(crate) fn key_of(bytes: &[u8]) -> Option<ArrayKey<32>>
    ensures fits { IfSome result (λ k. (array_key_bytes k ≡ bytes.now) × (length bytes.now ≤ 32)) }
    ensures too_long { IfNone result (32 < length bytes.now) }
{
    if bytes.len() > WIDTH {
        return None;
    }
    Some(ArrayKey::new_from_slice(bytes))
}

/// Returns the bound of this kind at the key with these bytes.
pub(crate) fn bound_at(kind: u8, bytes: &[u8]) -> Result<Bound<ArrayKey<32>>, BoundFault>
    ensures bound { IfOk result (λ b. (bound_fault 32 kind (length bytes.now) ≡ None)
        × (bound_in array_key_bytes b ≡ bound_of kind bytes.now)) }
    ensures fault { IfErr result (λ fault. bound_fault 32 kind (length bytes.now) ≡ Some fault) }
{
    if let Some(fault) = fault_of(WIDTH, kind, bytes.len()) {
        return Err(fault);
    }
    match kind {
        INCLUDED => Ok(Bound::Included(ArrayKey::new_from_slice(bytes))),
        EXCLUDED => Ok(Bound::Excluded(ArrayKey::new_from_slice(bytes))),
        _ => Ok(Bound::Unbounded),
    }
}
