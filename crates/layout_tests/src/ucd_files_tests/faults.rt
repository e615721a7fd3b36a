//! Faulty lines and files, and what faults print.

use super::*;
use ucd_files::Cause::*;
use ucd_files::UcdFault::At;

/// Whether loading answers this fault.
fn is_fault(answer: Result<Tables, UcdFault>, wanted: UcdFault) -> Result<bool, Memory> {
    match answer {
        Ok(_) => Ok(false),
        Err(UcdFault::Memory) => Err(Memory),
        Err(fault) => Ok(fault == wanted),
    }
}

/// A file with a faulty line, the number of that line, and what is wrong with it.
struct Faulty(UcdFile, &'static [u8], usize, Cause);

impl Row for Faulty {
    fn comes_out(&self, alloc: Global, _tables: &Tables) -> Result<bool, Memory> {
        let wanted = At {
            file: self.0,
            line: self.2,
            cause: self.3,
        };
        is_fault(load(alloc, self.0, self.1), wanted)
    }
}

const FAULTY_LINES: &[Faulty] = &[
    Faulty(UcdFile::Bidi, b"41;L", 1, BadCode),
    Faulty(UcdFile::Bidi, b"110000;L", 1, BadCode),
    Faulty(UcdFile::Bidi, b"0042..0041;L", 1, BadRange),
    Faulty(UcdFile::Bidi, b"0041", 1, MissingField),
    Faulty(UcdFile::Bidi, b"0041;Q", 1, UnknownValue),
    Faulty(UcdFile::Bidi, b"41;L\n\xFF", 2, BadUtf8),
    Faulty(UcdFile::Brackets, b"0028; 0029; x", 1, UnknownValue),
    Faulty(UcdFile::Brackets, b"0028; 0029", 1, MissingField),
    Faulty(UcdFile::Mirror, b"0028; D800", 1, BadCode),
    Faulty(UcdFile::Mirror, b"0028..0029; 0029", 1, BadCode),
    Faulty(UcdFile::Brackets, b"0028..0029; 0029; o", 1, BadCode),
    Faulty(UcdFile::Brackets, b"0028; DFFF; o", 1, BadCode),
    Faulty(UcdFile::Brackets, b"0028; 29; x", 1, BadCode),
    Faulty(UcdFile::Brackets, b"0028; ; o", 1, MissingField),
    Faulty(UcdFile::Brackets, b"0028; 0029; O", 1, UnknownValue),
    Faulty(UcdFile::Mirror, b"0028;", 1, MissingField),
    Faulty(UcdFile::Mirror, b"0028; 110000", 1, BadCode),
    Faulty(UcdFile::Bidi, b"0000041;L", 1, BadCode),
    Faulty(UcdFile::Bidi, b"00G1;L", 1, BadCode),
    Faulty(UcdFile::Bidi, b"0041...0042;L", 1, BadCode),
    Faulty(UcdFile::Bidi, b"0041.0042;L", 1, BadCode),
    Faulty(UcdFile::Bidi, b"0041 ..0042;L", 1, BadCode),
    Faulty(UcdFile::Bidi, b"0041..;L", 1, BadCode),
    Faulty(UcdFile::Bidi, b"0041\r;L", 1, BadCode),
    Faulty(UcdFile::Bidi, b";L", 1, MissingField),
    Faulty(UcdFile::Bidi, b"0041; \t", 1, MissingField),
    Faulty(UcdFile::Bidi, b"41..40;", 1, MissingField),
    Faulty(UcdFile::Bidi, b"0042..41;Q", 1, BadCode),
    Faulty(UcdFile::Bidi, b"0042..0041;Q", 1, BadRange),
    Faulty(UcdFile::Bidi, b"0041;l", 1, UnknownValue),
    Faulty(UcdFile::Bidi, b"0041;Left_To_Right", 1, UnknownValue),
    Faulty(
        UcdFile::Lb,
        b"0041;AL\n\n# x\n0042;AK\n0043",
        4,
        UnknownValue,
    ),
    Faulty(UcdFile::Ea, b"0041;Na\r\n0042\r\n", 2, MissingField),
    Faulty(UcdFile::Ea, b"\n\n\n0041;NA", 4, UnknownValue),
    Faulty(UcdFile::Lb, b"0041;AL # \xE2\x28\n41;AL", 1, BadUtf8),
    Faulty(UcdFile::Lb, b"41;AL\n\n\xE2", 3, BadUtf8),
    Faulty(UcdFile::Mirror, b"41;29\n\xC0\x80", 2, BadUtf8),
];

#[test]
fn a_faulty_line_is_named(rt: HostRuntime) {
    assert_rows(&rt, FAULTY_LINES);
}

/// Files, and the fault of the first one that is faulty.
struct FaultyFiles(Ucd<'static>, UcdFault);

impl Row for FaultyFiles {
    fn comes_out(&self, alloc: Global, _tables: &Tables) -> Result<bool, Memory> {
        is_fault(self.0.load(alloc), self.1)
    }
}

const FAULTY_FILES: &[FaultyFiles] = &[
    FaultyFiles(
        Ucd {
            mirror: b"0028",
            lb: b"\xFF",
            ..NONE
        },
        At {
            file: UcdFile::Mirror,
            line: 1,
            cause: MissingField,
        },
    ),
    FaultyFiles(
        Ucd {
            bidi: b"\n41;L",
            brackets: b"\xFF",
            ..NONE
        },
        At {
            file: UcdFile::Bidi,
            line: 2,
            cause: BadCode,
        },
    ),
];

#[test]
fn the_first_faulty_file_decides(rt: HostRuntime) {
    assert_rows(&rt, FAULTY_FILES);
}

/// A fault, its number, and how it is printed, behind its cause and its file where it has them.
struct Printed(UcdFault, u8, &'static str);

fn told(alloc: Global, fault: UcdFault) -> Result<String, AllocError> {
    match fault {
        At { cause, file, .. } => format!(in alloc; "{cause} {file}, {fault}"),
        UcdFault::Memory => format!(in alloc; "{fault}"),
    }
}

impl Row for Printed {
    fn comes_out(&self, alloc: Global, _tables: &Tables) -> Result<bool, Memory> {
        Ok(self.0.code() == self.1 && told(alloc, self.0)?.as_str() == self.2)
    }
}

const PRINTED: &[Printed] = &[
    Printed(
        At {
            file: UcdFile::Bidi,
            line: 12,
            cause: BadUtf8,
        },
        1,
        "BadUtf8 bidi, bidi line 12: BadUtf8",
    ),
    Printed(
        At {
            file: UcdFile::Brackets,
            line: 12,
            cause: BadCode,
        },
        2,
        "BadCode brackets, brackets line 12: BadCode",
    ),
    Printed(
        At {
            file: UcdFile::Mirror,
            line: 12,
            cause: BadRange,
        },
        3,
        "BadRange mirror, mirror line 12: BadRange",
    ),
    Printed(
        At {
            file: UcdFile::Lb,
            line: 12,
            cause: MissingField,
        },
        4,
        "MissingField lb, lb line 12: MissingField",
    ),
    Printed(
        At {
            file: UcdFile::Ea,
            line: 12,
            cause: UnknownValue,
        },
        5,
        "UnknownValue ea, ea line 12: UnknownValue",
    ),
    Printed(UcdFault::Memory, 9, "Memory"),
];

#[test]
fn faults_print_their_names(rt: HostRuntime) {
    assert_rows(&rt, PRINTED);
}
