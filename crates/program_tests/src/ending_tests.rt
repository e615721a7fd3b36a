//! What no clause says of a run that ends at its words, or at a file that can't be read.

use crate::files::{are_written, assert_unread};
use crate::given::Given;
use crate::rows::assert_rows;
use bg_types::{Device, Memory, Out, Stops};
use clap::{Arg, ArgAction, Command};
use command_line::*;
use std::alloc::{AllocError, Global};
use std::io::{self, ErrorKind, Read};
use std::test::Fail;
use test_rows::Row;

/// A program with one option `--at`.
fn named<'a>(alloc: Global) -> Result<Command<'a>, AllocError> {
    let at = Arg::new(alloc, "AT").long("at").action(ArgAction::Set);
    Command::new(alloc, "named").arg(at)
}

/// What stops the program at these words, if anything does: lack of memory, where it has no words.
fn stop_at(alloc: Global, words: &[&str]) -> Result<Option<Stop>, Memory> {
    if words.is_empty() {
        return Ok(Some(Stop::Memory));
    }
    match named(alloc)?.try_get_matches_from(words) {
        Ok(_matches) => Ok(None),
        Err(error) => match Stop::of(alloc, &error) {
            Stop::Memory => Err(Memory),
            stop => Ok(Some(stop)),
        },
    }
}

/// Words, how many bytes may be written, the status, and what the output and the errors begin with.
struct End(
    &'static [&'static str],
    usize,
    u8,
    &'static str,
    &'static str,
);

/// Ends a run into a sink that stops after `left` bytes.
fn ended(stop: &Stop, left: usize, written: &mut [u8], told: &mut [u8]) -> u8 {
    let mut out = Stops::new(Out::new(written), 7, left);
    end("named", stop, &mut out, &mut Out::new(told))
}

fn is_end(stop: &Stop, row: &End) -> bool {
    let (mut written, mut told) = ([0; 2_000], [0; 2_000]);
    let status = ended(stop, row.1, &mut written, &mut told);
    status == row.2
        && written.starts_with(row.3.as_bytes())
        && told.starts_with(row.4.as_bytes())
        && (told[0] == 0) == row.4.is_empty()
}

impl Row for End {
    fn comes_out(&self, alloc: Global) -> Result<bool, Memory> {
        match stop_at(alloc, self.0)? {
            Some(stop) => Ok(is_end(&stop, self)),
            None => Ok(false),
        }
    }
}

/// The ends of runs that are stopped at their words.
const ENDS: &[End] = &[
    End(
        &["named", "--help"],
        10_000,
        0,
        "Usage: named [OPTIONS]",
        "",
    ),
    End(&["named", "--help"], 10, 3, "Usage: nam", "named: device\n"),
    End(
        &["named", "--to", "3"],
        0,
        2,
        "",
        "error: unexpected argument '--to' found",
    ),
    End(
        &["named", "--at"],
        0,
        2,
        "",
        "error: a value is required for '--at <AT>'",
    ),
    End(&[], 0, 3, "", "named: memory\n"),
];

#[test]
fn help_and_usage_end_a_run(rt: HostRuntime) {
    assert_rows(&rt, ENDS);
}

/// Whether this line is told of a file that can't be read.
fn is_line(fault: &Unread, line: &str) -> bool {
    let mut room = [0; 64];
    let done = tell("named", fault, &mut Out::new(room.as_mut_slice()));
    done == Ok(()) && are_written(&room, line.as_bytes())
}

/// Whether a line is told as far as a sink takes it.
fn is_cut_line() -> bool {
    let mut room = [0; 64];
    let mut out = Stops::new(Out::new(room.as_mut_slice()), 3, 9);
    let done = tell("named", &CannotRead("c"), &mut out);
    done == Err(Device) && are_written(&room, b"named: ca")
}

#[test]
fn a_fault_is_one_line(rt: HostRuntime) -> Result<(), AllocError> {
    let unread = Unread::ReadFailed(String::from_str(rt.alloc(), "a/b")?);
    assert!(rt; is_line(&unread, "named: cannot read a/b\n"));
    assert!(rt; is_line(&Unread::Memory, "named: memory\n"));
    assert!(rt; is_cut_line());
    Ok(())
}

/// A reader that fails after it has given these bytes.
#[derive(Drop)]
struct Breaks<'a>(&'a [u8]);

impl Read for Breaks<'_> {
    fn read(&mut self, buf: &mut [u8]) -> io::Result<usize> {
        match self.0.read(buf) {
            Ok(0) => Err(io::Error::from(ErrorKind::Other)),
            read => read,
        }
    }
}

/// Bytes, the greatest number that is read, and what is read.
struct Limited(&'static [u8], u64, Option<&'static [u8]>);

impl Row for Limited {
    fn comes_out(&self, alloc: Global) -> Result<bool, Memory> {
        if self.1 >= 8 {
            return Ok(false);
        }
        match read_whole(alloc, self.0, self.1) {
            Ok(read) => Ok(read.as_deref() == self.2),
            Err(error) if error.kind() == ErrorKind::OutOfMemory => Err(Memory),
            Err(_) => Ok(false),
        }
    }
}

const READS: &[Limited] = &[
    Limited(b"", 0, Some(b"")),
    Limited(b"abc", 4, Some(b"abc")),
    Limited(b"abc", 3, Some(b"abc")),
    Limited(b"abc", 2, None),
    Limited(b"abc", 0, None),
];

/// A reader that fails.
#[derive(Clone, Copy)]
struct Failing;

impl Row for Failing {
    fn comes_out(&self, alloc: Global) -> Result<bool, Memory> {
        match read_whole(alloc, Breaks(b"abc"), 8) {
            Ok(_read) => Ok(false),
            Err(error) if error.kind() == ErrorKind::OutOfMemory => Err(Memory),
            Err(error) => Ok(error.kind() == ErrorKind::Other),
        }
    }
}

#[test]
fn a_reader_is_read_up_to_the_limit(rt: HostRuntime) {
    assert_rows(&rt, READS);
    assert_rows(&rt, &[Failing]);
}

#[test]
fn a_file_that_cannot_be_read_is_named(rt: HostRuntime) -> Result<(), Fail> {
    assert!(rt; read(&rt, "/dev/null")?.is_empty());
    open(&rt, "/dev/zero")?;
    assert_unread(&rt, open(&rt, "/nowhere/a").err(), "/nowhere/a")?;
    // A folder opens but can't be read; this device gives bytes without end.
    assert_unread(&rt, read(&rt, "/dev").err(), "/dev")?;
    assert_unread(&rt, read(&rt, "/dev/zero").err(), "/dev/zero")?;
    let first = "/nowhere/DerivedBidiClass.txt";
    assert_unread(&rt, read_data(&rt, "/nowhere").err(), first)?;
    Ok(())
}

/// Words of a command line, and what comes of them: two words, or what is wrong.
struct Words(
    &'static [&'static [u8]],
    Result<(&'static str, &'static str), &'static str>,
);

/// Whether these are the words of a line, or what is wrong with it.
fn are_words(came: &Result<Vec<String>, Stop>, row: &Words) -> Result<bool, Memory> {
    match (came, row.1) {
        (Err(Stop::Memory), _) => Err(Memory),
        (Ok(words), Ok((first, second))) => match words.as_slice() {
            [one, other] => Ok(one.as_str() == first && other.as_str() == second),
            _ => Ok(false),
        },
        (Err(Stop::Usage(text)), Err(wanted)) => Ok(text.as_str() == wanted),
        _ => Ok(false),
    }
}

impl Row for Words {
    fn comes_out(&self, alloc: Global) -> Result<bool, Memory> {
        let given = Given {
            words: self.0,
            value: None,
        };
        are_words(&words(&(given, alloc)), self)
    }
}

const WORDS: &[Words] = &[
    Words(&[b"named", b"\xD7\x90"], Ok(("named", "\u{5D0}"))),
    Words(
        &[b"named", b"\xFF"],
        Err("error: an argument is not valid UTF-8\n"),
    ),
];

#[test]
fn words_are_utf_8(rt: HostRuntime) {
    assert_rows(&rt, WORDS);
}
