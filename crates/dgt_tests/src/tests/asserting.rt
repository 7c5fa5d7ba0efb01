//! Assertions. A call of one of these takes less time to prove than an `assert!`.

use std::alloc::Global;
use std::fmt::{Debug, Display};
use std::process::Abort;
use std::test::Fail;

/// Asserts that `holds` is true; `what` describes it.
pub fn assert_that(rt: &impl Abort, holds: bool, what: &str) {
    assert!(rt; holds, "{what}");
}

/// Asserts that two values are equal.
pub fn assert_same<T: PartialEq + Debug + Drop>(rt: &impl Abort, got: T, right: T) {
    assert_eq!(rt; got, right);
}

/// Asserts that two values are equal in this row of a table.
pub fn assert_row<T: PartialEq + Debug + Drop>(rt: &impl Abort, row: usize, got: T, right: T) {
    assert_eq!(rt; got, right, "row {row}");
}

/// Asserts that an error has this text.
pub fn assert_said<T: Display>(
    rt: &impl Abort,
    alloc: Global,
    error: &T,
    said: &str,
) -> Result<(), Fail> {
    assert_same(rt, error.to_string(alloc)?.as_str(), said);
    Ok(())
}
