//! What is wanted of a value, asserted in one place: an assertion with a text is dear to prove, and so no test has one of its own.

use std::fmt::Debug;
use std::process::Abort;

/// The value is the one that is wanted. Where it isn't, `what` and a number say which value that is.
pub fn expect_same<T: PartialEq + Debug>(
    rt: &impl Abort,
    found: &T,
    wanted: &T,
    what: &str,
    number: u64,
) {
    assert_eq!(rt; *found, *wanted, "{what} {number}");
}
