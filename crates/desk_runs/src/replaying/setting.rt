//! What all steps of a run share.

ghost use Rattle.std.specs.Prelude.{◌≤◌};

use bg_types::{Base, Op};
use std::alloc::Global;
use ucd_files::Tables;

/// What all steps of a run share: what is drawn with, and the operations of the files.
#[derive(Clone, Copy)]
pub struct Setting<'a> {
    pub alloc: Global,
    pub tables: &'a Tables,
    /// The width of a row in columns, 2 to 500.
    pub width: u16,
    pub base: Base,
    pub files: &'a [Vec<Op>],
    ghost at_least: { 2 ≤ width },
    ghost at_most: { width ≤ 500 },
}
