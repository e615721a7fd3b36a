//! The data files that C hands in, and where one is faulty.

ghost use Rattle.std.specs.Prelude.{◌≡◌, ◌<◌};
ghost use Rattle.c_pictures.specs.Files.{data_number, data_fault, file_number};

use c_answers::{DATA, MEMORY};
use ucd_files::{UcdFault, UcdFile};

/// The number of a data file's fault.
pub fn data_number(fault: UcdFault) -> u32
    ensures number { result ≡ data_number fault }
    ensures some { 0 < result }
{
    match fault {
        UcdFault::Memory => MEMORY,
        UcdFault::At { cause, .. } => DATA + u32::from(cause.code()),
    }
}

/// The bytes of the five data files: `bidigrid_bytes` of the header, five of them in this order.
#[derive(Clone, Copy)]
#[repr(C)]
pub struct DataFiles<'a> {
    pub bidi: &'a [u8],
    pub brackets: &'a [u8],
    pub mirror: &'a [u8],
    pub lb: &'a [u8],
    pub ea: &'a [u8],
}

/// Where a data file is faulty: `bidigrid_data_fault` of the header.
#[derive(Clone, Copy)]
#[repr(C)]
pub struct DataFault {
    pub line: usize,
    pub file: u32,
}

impl DataFault {
    /// Where no data file is faulty.
    pub const NONE: DataFault = DataFault { line: 0, file: 0 };
}

/// Where a data file's fault is.
pub fn data_fault(fault: UcdFault) -> DataFault
    ensures { result ≡ data_fault fault }
{
    match fault {
        UcdFault::Memory => DataFault::NONE,
        UcdFault::At { file, line, .. } => DataFault {
            line,
            file: file_number(file),
        },
    }
}

/// The number of a data file, from 1, in the order in which they are handed in.
fn file_number(file: UcdFile) -> u32
    ensures { result ≡ file_number file }
{
    match file {
        UcdFile::Bidi => 1,
        UcdFile::Brackets => 2,
        UcdFile::Mirror => 3,
        UcdFile::Lb => 4,
        UcdFile::Ea => 5,
    }
}
