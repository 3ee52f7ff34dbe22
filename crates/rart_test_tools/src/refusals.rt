//! Requests for memory that tests have refused.

use std::alloc::Global;

/// A request that makes a preloaded library, if there is one, refuse the request `at` after it. The C library by
/// itself refuses it, as no block is so large.
pub fn refuse(alloc: Global, at: usize) {
    let _ = Vec::<u8>::with_capacity(
        alloc,
        0x5ef0_0000_0000_0000_usize.wrapping_add(at.min(0xffff_ffff)),
    );
}

/// A request that makes the library refuse the request `at` after it, and each one after that.
pub fn refuse_from(alloc: Global, at: usize) {
    let _ = Vec::<u8>::with_capacity(
        alloc,
        0x5ef5_0000_0000_0000_usize.wrapping_add(at.min(0xffff_ffff)),
    );
}

/// Whether that request was refused since; afterwards none is to be refused.
pub fn was_refused(alloc: Global) -> bool {
    Vec::<u8>::with_capacity(alloc, 0x5ef1_0000_0000_0000_usize).is_ok()
}

/// Ends a part of a sweep. The library takes note of a part in which it refused nothing.
pub fn part_ends(alloc: Global) {
    let _ = Vec::<u8>::with_capacity(alloc, 0x5ef2_0000_0000_0000_usize);
}

/// A request that makes the library add up the bytes of the requests after it, against a limit.
pub fn add_bytes(alloc: Global, limit: usize) {
    let _ = Vec::<u8>::with_capacity(
        alloc,
        0x5ef3_0000_0000_0000_usize.wrapping_add(limit.min(0xffff_ffff)),
    );
}

/// Whether those bytes were more than the limit; afterwards none are added up.
pub fn were_more(alloc: Global) -> bool {
    Vec::<u8>::with_capacity(alloc, 0x5ef4_0000_0000_0000_usize).is_ok()
}

/// Whether each request refused in turn passes, up to the first that isn't made, which ends a part.
/// `is_refused_well` makes calls with the request of its number refused, and returns whether one was; None where
/// something failed.
pub fn is_swept<F: Fn(usize) -> Option<bool> + Drop>(alloc: Global, is_refused_well: F) -> bool
    requires { (at : _) → F.pre is_refused_well at }
{
    for at in 1..100_usize {
        match is_refused_well(at) {
            Some(true) => {}
            Some(false) => {
                part_ends(alloc);
                return true;
            }
            None => return false,
        }
    }
    false
}
