//! Calls that are made again where a growth was refused.

use std::test::Fail;

/// No call here has so many growths.
pub const MOST: u64 = 100;

/// That memory is wanting was told exactly where a growth was refused; whether one was.
pub fn told(is_refused: bool, is_wanting: bool) -> Result<bool, Fail> {
    if is_refused == is_wanting {
        Ok(is_refused)
    } else {
        Err(Fail::new("a refusal is told, and nothing else is"))
    }
}
