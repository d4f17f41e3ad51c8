//! Comparisons.
use std::process::Abort;

/// That both are equal; the text stands where they are not.
pub fn expect_equal<T: PartialEq + Drop>(rt: &impl Abort, text: &str, found: T, wanted: T) {
    assert!(rt; found == wanted, "{text}");
}
