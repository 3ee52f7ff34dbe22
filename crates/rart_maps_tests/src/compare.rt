//! Comparisons that end a test.

use std::fmt::Debug;
use std::process::Abort;

/// Ends the program, with both values, if they differ. An `assert_eq!` would be checked anew at each place.
pub fn expect_eq<T: PartialEq + Debug + Drop>(rt: &impl Abort, found: T, wanted: T) {
    assert_eq!(rt; found, wanted)
}
