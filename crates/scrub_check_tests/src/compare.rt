//! How tests compare what they found with what they expected.

use std::fmt::Debug;
use std::process::Abort;

/// Checks that two values are equal, and prints both if they aren't. That they can be printed is proved here
/// once, and not in each test.
pub(crate) fn same<T: PartialEq + Debug + Drop>(rt: &impl Abort, found: T, wanted: T) {
    assert_eq!(rt; found, wanted);
}
