//! Tables of tests.

use std::process::Abort;

/// Stops at the first row that is not right, and tells its number.
pub(crate) fn assert_all<R, F: Fn(&R) -> bool>(rt: &impl Abort, rows: &[R], is_right: F)
    requires { F.IsAlwaysCallable is_right }
{
    for (number, row) in rows.iter().enumerate() {
        assert!(rt; is_right(row), "row {number}, counted from 0");
    }
}
