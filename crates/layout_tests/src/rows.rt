//! Rows that are tried by the tables of data files.

use bg_types::Memory;
use std::alloc::Global;
use std::process::Abort;
use test_rows::is_right;
use ucd_files::{Tables, Ucd, UcdFault, vectors};

/// A row of a table of tests.
pub trait Row {
    /// Whether it comes out by these tables.
    fn comes_out(&self, alloc: Global, tables: &Tables) -> Result<bool, Memory>;
}

/// The tables of these files, made once more where memory was refused.
fn tables_of(alloc: Global, files: &Ucd) -> Result<Tables, UcdFault> {
    match files.load(alloc) {
        Err(UcdFault::Memory) => files.load(alloc),
        answer => answer,
    }
}

/// A row with the tables that it is tried by.
#[derive(Drop)]
struct By<'a, R>(&'a Tables, &'a R);

impl<R: Row> test_rows::Row for By<'_, R> {
    fn comes_out(&self, alloc: Global) -> Result<bool, Memory> {
        self.1.comes_out(alloc, self.0)
    }
}

fn first_wrong<R: Row>(alloc: Global, tables: &Tables, rows: &[R]) -> Option<usize> {
    rows.iter()
        .position(|row| !is_right(alloc, &By(tables, row)))
}

/// The first row that does not come out by the tables of these files.
fn first_wrong_by<R: Row>(
    alloc: Global,
    files: &Ucd,
    rows: &[R],
) -> Result<Option<usize>, UcdFault> {
    match tables_of(alloc, files) {
        Ok(tables) => Ok(first_wrong(alloc, &tables, rows)),
        Err(fault) => Err(fault),
    }
}

/// Tries rows by the tables of these files.
pub fn assert_rows_by<R: Row>(rt: &(impl Abort + AllocGlobal), files: &Ucd, rows: &[R]) {
    let wrong = first_wrong_by(rt.alloc(), files, rows);
    assert_eq!(rt; wrong, Ok(None), "the first wrong row");
}

/// Tries rows by the tables of the small files.
pub fn assert_rows<R: Row>(rt: &(impl Abort + AllocGlobal), rows: &[R]) {
    assert_rows_by(rt, &vectors::SMALL, rows);
}

/// Bidi classes, and a row that is tried by the small files with these.
pub struct ByClasses<R>(pub &'static [u8], pub R);

impl<R: Row> Row for ByClasses<R> {
    fn comes_out(&self, alloc: Global, _tables: &Tables) -> Result<bool, Memory> {
        let files = Ucd {
            bidi: self.0,
            ..vectors::SMALL
        };
        match files.load(alloc) {
            Ok(tables) => self.1.comes_out(alloc, &tables),
            Err(UcdFault::Memory) => Err(Memory),
            Err(_) => Ok(false),
        }
    }
}
