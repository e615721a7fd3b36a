//! What tests assert of tables of rows.

use std::process::Abort;
use test_rows::{Row, first_wrong};

/// Nothing is wrong of this.
pub fn assert_none(rt: &impl Abort, what: &str, wrong: Option<usize>) {
    assert_eq!(rt; wrong, None, "the first wrong of {what}");
}

/// Each row comes out.
pub fn assert_rows<R: Row>(rt: &(impl Abort + AllocGlobal), rows: &[R]) {
    assert_none(rt, "the rows", first_wrong(rt.alloc(), rows));
}
