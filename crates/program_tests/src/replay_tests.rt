//! Runs worked out by hand, from files and a schedule to the printed rows.

use crate::files::Given::{Bytes, Typed};
use crate::files::*;
use crate::rows::assert_rows;
use bg_types::{Base, Memory, Out, Stops};
use desk_replica::TakeFault;
use desk_runs::{RunFault, ScheduleFault, Ucd, replay};
use op_codec::CodecFault;
use std::alloc::{AllocError, Global};
use test_rows::Row;
use ucd_files::vectors::SMALL;
use ucd_files::{Cause, UcdFault, UcdFile};

/// The data files of a run, its width, its schedule, and after how many bytes its sink stops.
#[derive(Clone, Copy)]
struct Run<'a> {
    ucd: Ucd<'a>,
    width: u16,
    schedule: Option<&'a [u8]>,
    left: usize,
}

/// What a run over files answers; nothing where it can't be called.
fn answer_of(
    alloc: Global,
    run: &Run,
    files: &[Vec<u8>],
    room: &mut [u8],
) -> Option<Result<(), RunFault>> {
    let width = run.width;
    if width < 2 || width > 500 || files.is_empty() || files.len() > 64 {
        return None;
    }
    let mut out = Stops::new(Out::new(room), 3, run.left);
    Some(replay(
        alloc,
        KEY,
        &run.ucd,
        width,
        Base::Auto,
        files,
        run.schedule,
        &mut out,
    ))
}

/// Whether a run comes to what is wanted.
fn comes_to(alloc: Global, given: &Run, files: &[Vec<u8>], wanted: Outcome) -> bool {
    let mut room = [0; 64];
    let answer = answer_of(alloc, given, files, &mut room);
    answer == Some(wanted.0) && are_written(&room, wanted.1)
}

/// A width, a text and its rows.
struct Rows(u16, &'static str, &'static str);

/// A run of no schedule that is not stopped, by the small data files.
fn plain(width: u16) -> Run<'static> {
    Run {
        ucd: SMALL,
        width,
        schedule: None,
        left: 1_000,
    }
}

impl Row for Rows {
    fn comes_out(&self, alloc: Global) -> Result<bool, Memory> {
        let files = files_of(alloc, &[Typed(1, self.1)])?;
        Ok(comes_to(alloc, &plain(self.0), &files, (Ok(()), self.2.as_bytes())))
    }
}

const ROWS: &[Rows] = &[
    Rows(4, "", "    \n"),
    Rows(
        8,
        "ab \u{5D0}\u{5D1}\u{5D2}",
        "ab \u{5D2}\u{5D1}\u{5D0}  \n",
    ),
    Rows(8, "\u{5D0}\u{5D1} 12", "   12 \u{5D1}\u{5D0}\n"),
    Rows(4, "\u{5D0}(b)", "(b)\u{5D0}\n"),
    Rows(4, "a\u{2067}b!\u{2069}c", "a!bc\n"),
    Rows(2, "ab cd", "ab\ncd\n"),
    Rows(4, "abcdef", "abcd\nef  \n"),
    Rows(2, "a\u{4E16}b", "a \n\u{4E16}\nb \n"),
    Rows(2, "a\r\nb", "a \nb \n"),
    Rows(2, "a\n", "a \n  \n"),
    Rows(2, "e\u{301}", "e\u{301} \n"),
    Rows(3, "a   ", "a  \n"),
    Rows(
        5,
        "a \u{5D0}\u{5D1} \u{5D2}\u{5D3}",
        "a \u{5D1}\u{5D0} \n\u{5D3}\u{5D2}   \n",
    ),
    Rows(4, "\u{627}12", " 12\u{627}\n"),
    // A letter in 64 embeddings.
    Rows(4, DEEP, "a   \n"),
];

const DEEP: &str = "\
\u{202B}\u{202B}\u{202B}\u{202B}\u{202B}\u{202B}\u{202B}\u{202B}\
\u{202B}\u{202B}\u{202B}\u{202B}\u{202B}\u{202B}\u{202B}\u{202B}\
\u{202B}\u{202B}\u{202B}\u{202B}\u{202B}\u{202B}\u{202B}\u{202B}\
\u{202B}\u{202B}\u{202B}\u{202B}\u{202B}\u{202B}\u{202B}\u{202B}\
\u{202B}\u{202B}\u{202B}\u{202B}\u{202B}\u{202B}\u{202B}\u{202B}\
\u{202B}\u{202B}\u{202B}\u{202B}\u{202B}\u{202B}\u{202B}\u{202B}\
\u{202B}\u{202B}\u{202B}\u{202B}\u{202B}\u{202B}\u{202B}\u{202B}\
\u{202B}\u{202B}\u{202B}\u{202B}\u{202B}\u{202B}\u{202B}\u{202B}\
a";

#[test]
fn texts_and_their_rows(rt: HostRuntime) {
    assert_rows(&rt, ROWS);
}

/// Files, a width, a schedule over them, and what the run comes to.
struct Scheduled(
    &'static [Given],
    u16,
    Option<&'static str>,
    Result<(), RunFault>,
    &'static str,
);

impl Row for Scheduled {
    fn comes_out(&self, alloc: Global) -> Result<bool, Memory> {
        let files = files_of(alloc, self.0)?;
        let given = Run {
            schedule: match self.2 {
                Some(schedule) => Some(schedule.as_bytes()),
                None => None,
            },
            ..plain(self.1)
        };
        Ok(comes_to(alloc, &given, &files, (self.3, self.4.as_bytes())))
    }
}

/// The files of `ab` and of nothing.
const AB: &[Given] = &[Typed(1, "ab"), Typed(1, "")];

const SCHEDULES: &[Scheduled] = &[
    Scheduled(
        AB,
        4,
        Some("take 1 1 2\nshow 1\ntake 1 1 1\nshow 1\nmerge 2 1\nshow 2\n"),
        Ok(()),
        "    \nab  \nab  \n",
    ),
    Scheduled(AB, 4, None, Ok(()), "ab  \nab  \n"),
    Scheduled(AB, 4, Some(""), Ok(()), ""),
    Scheduled(AB, 4, Some("show 2"), Ok(()), "    \n"),
    Scheduled(
        AB,
        4,
        Some("# none\r\n\r\n  take  1 1 1\r\n \nshow 1\r\n#show 1\nshow 2"),
        Ok(()),
        "a   \n    \n",
    ),
    Scheduled(
        AB,
        4,
        Some("take 1 1 1\nmerge 1 1\nshow 1\n"),
        Ok(()),
        "a   \n",
    ),
    Scheduled(
        AB,
        4,
        Some("take 1 1 1\nmerge 1 2\nshow 1\nshow 2\n"),
        Ok(()),
        "a   \n    \n",
    ),
    Scheduled(
        AB,
        4,
        Some("take 2 1 0000001\ntake 2 1 1\nshow 2\nshow 1\n"),
        Ok(()),
        "a   \n    \n",
    ),
    Scheduled(
        AB,
        4,
        Some("merge 2 1\ntake 1 1 1\nshow 2\nmerge 2 1\nshow 2\n"),
        Ok(()),
        "    \na   \n",
    ),
];

#[test]
fn schedules_and_what_they_show(rt: HostRuntime) {
    assert_rows(&rt, SCHEDULES);
}

/// A schedule over two files of two operations each, and where and how it is faulty.
struct FaultySchedule(&'static str, usize, ScheduleFault);

impl Row for FaultySchedule {
    fn comes_out(&self, alloc: Global) -> Result<bool, Memory> {
        let files = files_of(alloc, &[Typed(1, "ab"), Typed(2, "cd")])?;
        let given = Run {
            schedule: Some(self.0.as_bytes()),
            ..plain(4)
        };
        let fault = RunFault::Schedule(self.1, self.2);
        Ok(comes_to(alloc, &given, &files, (Err(fault), b"")))
    }
}

const FAULTY_SCHEDULES: &[FaultySchedule] = &[
    FaultySchedule("jump 1", 1, ScheduleFault::UnknownStep),
    FaultySchedule("take 1 1", 1, ScheduleFault::WrongWords),
    FaultySchedule("take 9 1 x", 1, ScheduleFault::BadNumber),
    FaultySchedule("show 0", 1, ScheduleFault::NoSuchDesk),
    FaultySchedule("merge 1 3", 1, ScheduleFault::NoSuchDesk),
    FaultySchedule("take 1 3 9", 1, ScheduleFault::NoSuchFile),
    FaultySchedule("take 1 1 0", 1, ScheduleFault::NoSuchOperation),
    FaultySchedule("take 1 1 3", 1, ScheduleFault::NoSuchOperation),
    FaultySchedule("show 00000001", 1, ScheduleFault::BadNumber),
    FaultySchedule("show 1\r", 1, ScheduleFault::BadNumber),
    FaultySchedule("Show 1", 1, ScheduleFault::UnknownStep),
    FaultySchedule(" # show 1", 1, ScheduleFault::UnknownStep),
    FaultySchedule("show", 1, ScheduleFault::WrongWords),
    FaultySchedule("show 1 2", 1, ScheduleFault::WrongWords),
    FaultySchedule("merge 1 2 3", 1, ScheduleFault::WrongWords),
    FaultySchedule("take 3 3 3", 1, ScheduleFault::NoSuchDesk),
    FaultySchedule("take 1 0 1", 1, ScheduleFault::NoSuchFile),
    FaultySchedule(
        "show 1\n\n# x\r\nmerge 3 1\njump",
        4,
        ScheduleFault::NoSuchDesk,
    ),
    FaultySchedule(
        "take 1 1 1\ntake 1 2 1\nshow +1\n",
        3,
        ScheduleFault::BadNumber,
    ),
];

#[test]
fn faulty_lines_of_schedules(rt: HostRuntime) {
    assert_rows(&rt, FAULTY_SCHEDULES);
}

/// Two files that give an identifier twice.
const TWICE: &[Given] = &[Typed(1, "a"), Typed(1, "b")];

const REUSED: TakeFault = TakeFault::IdentifierReused;

/// Schedules with the line and the desk of the refusal, and what stands before it.
const REFUSED: &[Scheduled] = &[
    Scheduled(
        TWICE,
        2,
        Some("take 1 1 1\nshow 1\ntake 1 2 1\nshow 1\n"),
        Err(RunFault::Step(3, 1, REUSED)),
        "a \n",
    ),
    Scheduled(
        TWICE,
        2,
        Some("take 1 1 1\ntake 2 2 1\n\nmerge 2 1\nshow 2\n"),
        Err(RunFault::Step(4, 2, REUSED)),
        "",
    ),
    Scheduled(
        TWICE,
        2,
        Some("show 2\ntake 2 2 1\nshow 2\ntake 1 1 1\nmerge 1 2"),
        Err(RunFault::Step(5, 1, REUSED)),
        "  \nb \n",
    ),
    Scheduled(TWICE, 2, None, Err(RunFault::Step(0, 1, REUSED)), ""),
];

#[test]
fn refused_steps_and_what_stands_before_them(rt: HostRuntime) {
    assert_rows(&rt, REFUSED);
}

/// A data file whose second line is faulty, whichever of the five it stands for.
const BAD: &[u8] = b"\nzz; 0029; o\n";

/// Data files that are read before files and a schedule that are faulty, after how many bytes the sink stops, and the fault.
struct First(Ucd<'static>, usize, RunFault);

impl Row for First {
    fn comes_out(&self, alloc: Global) -> Result<bool, Memory> {
        let files = files_of(alloc, &[Typed(1, "ab"), Typed(1, ""), Bytes(b"BGOQ")])?;
        let given = Run {
            ucd: self.0,
            width: 4,
            schedule: Some(b"jump"),
            left: self.1,
        };
        Ok(comes_to(alloc, &given, &files, (Err(self.2), b"")))
    }
}

const FIRST: &[First] = &[
    First(
        Ucd {
            bidi: BAD,
            ea: BAD,
            ..SMALL
        },
        9,
        RunFault::Tables(UcdFault::At {
            file: UcdFile::Bidi,
            line: 2,
            cause: Cause::BadCode,
        }),
    ),
    First(
        Ucd {
            brackets: BAD,
            ..SMALL
        },
        9,
        RunFault::Tables(UcdFault::At {
            file: UcdFile::Brackets,
            line: 2,
            cause: Cause::BadCode,
        }),
    ),
    First(
        Ucd {
            mirror: BAD,
            ..SMALL
        },
        9,
        RunFault::Tables(UcdFault::At {
            file: UcdFile::Mirror,
            line: 2,
            cause: Cause::BadCode,
        }),
    ),
    First(
        Ucd {
            lb: BAD,
            ea: BAD,
            ..SMALL
        },
        9,
        RunFault::Tables(UcdFault::At {
            file: UcdFile::Lb,
            line: 2,
            cause: Cause::BadCode,
        }),
    ),
    First(
        Ucd { ea: BAD, ..SMALL },
        9,
        RunFault::Tables(UcdFault::At {
            file: UcdFile::Ea,
            line: 2,
            cause: Cause::BadCode,
        }),
    ),
    First(
        SMALL,
        1_000,
        RunFault::File(
            3,
            CodecFault::Malformed {
                frame: 0,
                cause: op_codec::Cause::BadMagic,
            },
        ),
    ),
];

#[test]
fn the_first_faulty_data_decides(rt: HostRuntime) {
    assert_rows(&rt, FIRST);
}

/// The room of three shows, of which the first ones are written.
const SHOWS: [&[u8]; 4] = [b"", b"    \n", b"    \nab  \n", b"    \nab  \nab  \n"];

/// With ample memory a run is right; where a growth is refused it says so, and whole shows are
/// written.
fn shows_or_says_memory(alloc: Global, files: &[Vec<u8>]) -> bool {
    let mut room = [0; 16];
    let given = Run {
        schedule: Some(b"show 2\ntake 1 1 2\ntake 1 1 1\nshow 1\nmerge 2 1\nshow 2\n"),
        ..plain(4)
    };
    match answer_of(alloc, &given, files, &mut room) {
        Some(Ok(())) => are_written(&room, SHOWS[3]),
        Some(Err(RunFault::Memory)) => {
            let mut whole = false;
            for shows in SHOWS {
                whole = are_written(&room, shows) || whole;
            }
            whole
        }
        _ => false,
    }
}

#[test]
fn a_run_is_right_or_says_memory(rt: HostRuntime) -> Result<(), AllocError> {
    let files = files_of(rt.alloc(), AB)?;
    assert!(rt; shows_or_says_memory(rt.alloc(), &files));
    Ok(())
}
