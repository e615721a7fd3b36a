//! What no clause says of the command line: what it asks for, and which files it names.

use crate::files::assert_unread;
use crate::given::Given;
use crate::rows::assert_rows;
use bg_types::{Base, Memory};
use command_line::*;
use std::alloc::{AllocError, Global};
use std::test::Fail;
use test_rows::Row;

/// Appends words to a command line.
fn put_words(alloc: Global, line: &mut Vec<String>, words: &[&str]) -> Result<(), AllocError> {
    for word in words {
        line.push(String::from_str(alloc, word)?)?;
    }
    Ok(())
}

fn put_line(
    alloc: Global,
    line: &mut Vec<String>,
    words: &[&str],
    files: &[&str],
    more: &[&str],
    files_behind: &[&str],
) -> Result<(), AllocError> {
    put_words(alloc, line, &["bidigrid"])?;
    put_words(alloc, line, words)?;
    put_words(alloc, line, files)?;
    put_words(alloc, line, more)?;
    put_words(alloc, line, files_behind)
}

/// A command line as the program gets it: the words behind the program's name, then files, then
/// more words, then more files.
fn line(
    alloc: Global,
    words: &[&str],
    files: &[&str],
    more: &[&str],
    files_behind: &[&str],
) -> Result<Vec<String>, AllocError> {
    let mut line = Vec::new(alloc);
    put_line(alloc, &mut line, words, files, more, files_behind)?;
    Ok(line)
}

fn replay_told(alloc: Global, job: &Replay) -> Result<String, AllocError> {
    format!(in alloc;
        "replay {:?} {} {:?} {} {:?} {:?}",
        job.folder, job.width, job.base, job.wide_ambiguous, job.schedule, job.files
    )
}

fn caret_told(alloc: Global, job: &Walk) -> Result<String, AllocError> {
    format!(in alloc;
        "caret {:?} {} {:?} {} {} {:?} {:?}",
        job.folder, job.width, job.base, job.wide_ambiguous, job.place, job.moves, job.files
    )
}

fn type_told(alloc: Global, job: &Typing) -> Result<String, AllocError> {
    format!(in alloc;
        "type {} {:?} {} {:?} {:?} {:?}",
        job.site, job.place, job.erased, job.text, job.version, job.files
    )
}

/// What a command line asks for, or why it asks for nothing.
fn told(alloc: Global, job: &Result<Job, Stop>) -> Result<String, AllocError> {
    match job {
        Ok(Job::Text { files }) => format!(in alloc; "text {files:?}"),
        Ok(Job::Replay(job)) => replay_told(alloc, job),
        Ok(Job::Caret(job)) => caret_told(alloc, job),
        Ok(Job::Type(job)) => type_told(alloc, job),
        Ok(Job::Dump { file }) => format!(in alloc; "dump {file}"),
        Ok(Job::Migrate { file }) => format!(in alloc; "migrate {file}"),
        Ok(Job::Pack { listing }) => format!(in alloc; "pack {listing}"),
        Err(Stop::Help(_text)) => String::from_str(alloc, "help"),
        Err(Stop::Usage(_text)) => String::from_str(alloc, "usage"),
        Err(Stop::Memory) => Err(AllocError),
    }
}

/// What a command line of these words asks for.
fn told_of(alloc: Global, words: &[&str]) -> Result<String, AllocError> {
    let line = line(alloc, words, &[], &[], &[])?;
    let job = job(alloc, &line);
    told(alloc, &job)
}

/// Words behind the program's name, and what they ask for.
struct Asks(&'static [&'static str], &'static str);

impl Row for Asks {
    fn comes_out(&self, alloc: Global) -> Result<bool, Memory> {
        let told = told_of(alloc, self.0)?;
        Ok(told.as_str() == self.1)
    }
}

const JOBS: &[Asks] = &[
    Asks(&["text", "b", "a", "b"], r#"text ["b", "a", "b"]"#),
    Asks(&[], "usage"),
    Asks(&["--version"], "help"),
    Asks(&["paint"], "usage"),
    Asks(&["text"], "usage"),
    Asks(&["text", "--width", "4", "file"], "usage"),
    Asks(&["--help"], "help"),
    Asks(&["text", "--help"], "help"),
    Asks(&["replay", "--help"], "help"),
    Asks(&["help", "text"], "help"),
    Asks(&["dump", "a"], "dump a"),
    Asks(&["migrate", "c"], "migrate c"),
    Asks(&["pack", "b"], "pack b"),
    Asks(
        &[
            "caret", "--ucd", "dir", "--width", "8", "--at", "3", "--moves", "", "a",
        ],
        r#"caret Some("dir") 8 Auto false 3 [] ["a"]"#,
    ),
    Asks(
        &[
            "caret", "--ucd", "dir", "--width", "8", "--at", "3", "--moves", "lrud", "a",
        ],
        r#"caret Some("dir") 8 Auto false 3 [Left, Right, Up, Down] ["a"]"#,
    ),
    Asks(
        &[
            "replay",
            "--ucd",
            "dir",
            "--width",
            "2",
            "--schedule",
            "s",
            "a",
            "b",
        ],
        r#"replay Some("dir") 2 Auto false Some("s") ["a", "b"]"#,
    ),
    Asks(
        &["replay", "--ucd", "dir", "--width", "500", "a", "b"],
        r#"replay Some("dir") 500 Auto false None ["a", "b"]"#,
    ),
    Asks(&["type", "--site=7"], "type 7 None 0 None Two []"),
    Asks(
        &["type", "--site", "7", "a", "b"],
        r#"type 7 None 0 None Two ["a", "b"]"#,
    ),
    Asks(
        &["type", "--site=7", "a", "--at=3", "--erase=2", "--text=x y"],
        r#"type 7 Some(3) 2 Some("x y") Two ["a"]"#,
    ),
    Asks(
        &["type", "--site=7", "--version", "1"],
        "type 7 None 0 None One []",
    ),
    Asks(
        &["type", "--site=7", "--version", "2"],
        "type 7 None 0 None Two []",
    ),
    // Standard input, once.
    Asks(&["text", "a", "-"], r#"text ["a", "-"]"#),
    Asks(&["text", "-", "a", "-"], "usage"),
    Asks(&["dump", "-"], "dump -"),
    Asks(&["migrate", "-"], "migrate -"),
    Asks(&["pack", "-"], "pack -"),
    Asks(
        &["replay", "--width=2", "--schedule=-", "a"],
        r#"replay None 2 Auto false Some("-") ["a"]"#,
    ),
    Asks(
        &["replay", "--width=2", "--schedule=s", "-"],
        r#"replay None 2 Auto false Some("s") ["-"]"#,
    ),
    Asks(&["replay", "--width=2", "--schedule=-", "-"], "usage"),
    Asks(
        &["caret", "--width=2", "--at=0", "--moves=", "-"],
        "caret None 2 Auto false 0 [] [\"-\"]",
    ),
    Asks(
        &["caret", "--width=2", "--at=0", "--moves=", "-", "-"],
        "usage",
    ),
    Asks(
        &["type", "--site=7", "--text=-", "a"],
        r#"type 7 None 0 None Two ["a"]"#,
    ),
    Asks(
        &["type", "--site=7", "--text=x", "-"],
        r#"type 7 None 0 Some("x") Two ["-"]"#,
    ),
    Asks(&["type", "--site=7", "--text=-", "-"], "usage"),
    Asks(&["type", "--site=7", "-"], "usage"),
];

#[test]
fn words_ask_for_a_job(rt: HostRuntime) {
    assert_rows(&rt, JOBS);
}

/// How many files a command line names, its base direction and whether ambiguous characters are
/// wide, or what else it comes to.
type Outcome = Result<(usize, Base, bool), &'static str>;

fn outcome(job: &Result<Job, Stop>) -> Result<Outcome, Memory> {
    match job {
        Ok(Job::Text { files }) => Ok(Ok((files.len(), Base::Auto, false))),
        Ok(Job::Replay(job)) => Ok(Ok((job.files.len(), job.base, job.wide_ambiguous))),
        Ok(Job::Caret(job)) => Ok(Ok((job.files.len(), job.base, job.wide_ambiguous))),
        Ok(_job) => Ok(Err("another job")),
        Err(Stop::Help(_text)) => Ok(Err("help")),
        Err(Stop::Usage(_text)) => Ok(Err("usage")),
        Err(Stop::Memory) => Err(Memory),
    }
}

/// What a command line comes to.
fn outcome_of(
    alloc: Global,
    words: &[&str],
    files: &[&str],
    more: &[&str],
    files_behind: &[&str],
) -> Result<Outcome, Memory> {
    let line = line(alloc, words, files, more, files_behind)?;
    let job = job(alloc, &line);
    outcome(&job)
}

const FILES: &[&str] = &["file"; 65];

/// The words before a subcommand's last option, and that option.
const OPTIONS: [(&[&str], &[&str]); 4] = [
    (&["text"], &[]),
    (&["replay", "--ucd=D"], &["--width=4"]),
    (&["replay", "--ucd=D", "--width=4"], &["--schedule=S"]),
    (&["caret", "--ucd=D", "--width=4", "--at=0"], &["--moves=l"]),
];

/// Whether each subcommand comes to this with files before its last option and after it.
fn each_comes_to(
    alloc: Global,
    files: &[&str],
    behind: &[&str],
    wanted: Outcome,
) -> Result<bool, Memory> {
    let mut right = true;
    for (words, last) in &OPTIONS {
        right = outcome_of(alloc, words, files, last, behind)? == wanted && right;
    }
    Ok(right)
}

/// Numbers of files before a subcommand's last option and after it, and how many it then has.
struct Counts(usize, usize, Option<usize>);

impl Row for Counts {
    fn comes_out(&self, alloc: Global) -> Result<bool, Memory> {
        let wanted = match self.2 {
            Some(count) => Ok((count, Base::Auto, false)),
            None => Err("usage"),
        };
        let (before, behind) = (self.0.min(65), self.1.min(65));
        each_comes_to(alloc, &FILES[..before], &FILES[..behind], wanted)
    }
}

const COUNTS: &[Counts] = &[
    Counts(0, 0, None),
    Counts(1, 0, Some(1)),
    Counts(0, 1, Some(1)),
    Counts(64, 0, Some(64)),
    Counts(30, 34, Some(64)),
    Counts(65, 0, None),
    Counts(40, 25, None),
];

#[test]
fn a_run_has_one_to_64_files(rt: HostRuntime) {
    assert_rows(&rt, COUNTS);
}

/// Options that a subcommand has not, or that say what can't be.
struct Wrong(&'static [&'static str]);

impl Row for Wrong {
    fn comes_out(&self, alloc: Global) -> Result<bool, Memory> {
        Ok(outcome_of(alloc, self.0, &[], &[], &[])? == Err("usage"))
    }
}

const WRONG_OPTIONS: &[Wrong] = &[
    Wrong(&["caret", "--ucd=d", "--width=1", "--at=0", "--moves=l", "a"]),
    Wrong(&["caret", "--ucd=d", "--width=8", "--at=x", "--moves=l", "a"]),
    Wrong(&[
        "caret",
        "--ucd=d",
        "--width=8",
        "--at=4294967296",
        "--moves=l",
        "a",
    ]),
    Wrong(&["caret", "--ucd=d", "--width=8", "--at=0", "--moves=lx", "a"]),
    Wrong(&["replay", "--ucd", "d", "--width", "1", "a"]),
    Wrong(&["replay", "--ucd", "d", "--width", "501", "a"]),
    Wrong(&["replay", "--ucd", "d", "--width", "65536", "a"]),
    Wrong(&["replay", "--ucd", "d", "--width", "x", "a"]),
    Wrong(&["replay", "--ucd", "d", "a"]),
    Wrong(&["replay", "--ucd", "d", "--width", "4"]),
    Wrong(&["replay", "--ucd", "d", "--width", "4", "--schedule"]),
    Wrong(&["dump"]),
    Wrong(&["dump", "a", "b"]),
    Wrong(&["migrate"]),
    Wrong(&["migrate", "a", "b"]),
    Wrong(&["pack"]),
    Wrong(&["pack", "a", "b"]),
    Wrong(&["type", "a"]),
    Wrong(&["type", "--site", "0"]),
    Wrong(&["type", "--site", "65536"]),
    Wrong(&["type", "--site", "1", "--at", "-1"]),
    Wrong(&["type", "--site", "1", "--erase", "x"]),
    Wrong(&["type", "--site", "1", "--version"]),
    Wrong(&["type", "--site", "1", "--version", "3"]),
];

#[test]
fn wrong_options_are_a_usage_fault(rt: HostRuntime) {
    assert_rows(&rt, WRONG_OPTIONS);
}

/// A value that an option can't have, and how the line begins that is told of it.
struct Refused(&'static [&'static str], &'static str);

impl Row for Refused {
    fn comes_out(&self, alloc: Global) -> Result<bool, Memory> {
        match job(alloc, &line(alloc, self.0, &["a"], &[], &[])?) {
            Err(Stop::Usage(text)) => Ok(text.starts_with(self.1)),
            Err(Stop::Memory) => Err(Memory),
            _ => Ok(false),
        }
    }
}

const REFUSED: &[Refused] = &[
    Refused(
        &["type", "--site", "0"],
        "error: invalid value '0' for '--site <S>': 0 is not in 1..=65535\n",
    ),
    Refused(
        &["type", "--site", "70000"],
        "error: invalid value '70000' for '--site <S>': 70000 is not in 1..=65535\n",
    ),
    Refused(
        &["replay", "--ucd", "d", "--width", "1"],
        "error: invalid value '1' for '--width <N>': 1 is not in 2..=500\n",
    ),
    Refused(
        &["replay", "--ucd", "d", "--width", "70000"],
        "error: invalid value '70000' for '--width <N>': 70000 is not in 2..=500\n",
    ),
];

#[test]
fn a_refused_value_is_told_with_its_range(rt: HostRuntime) {
    assert_rows(&rt, REFUSED);
}

/// The subcommands that draw, with what they ask for.
const GRIDS: [&[&str]; 2] = [
    &["replay", "file", "--ucd", "d", "--width", "4"],
    &[
        "caret", "file", "--ucd", "d", "--width", "4", "--at", "0", "--moves", "l",
    ],
];

/// Choices of a subcommand that draws, and what they choose; nothing where they are wrong.
struct Choice(&'static [&'static str], Option<(Base, bool)>);

impl Row for Choice {
    fn comes_out(&self, alloc: Global) -> Result<bool, Memory> {
        let wanted = match self.1 {
            Some((base, wide)) => Ok((1, base, wide)),
            None => Err("usage"),
        };
        let mut right = true;
        for words in &GRIDS {
            right = outcome_of(alloc, words, &[], self.0, &[])? == wanted && right;
        }
        Ok(right)
    }
}

const CHOICES: &[Choice] = &[
    Choice(&[], Some((Base::Auto, false))),
    Choice(
        &["--base", "auto", "--ambiguous", "narrow"],
        Some((Base::Auto, false)),
    ),
    Choice(&["--base=left"], Some((Base::Left, false))),
    Choice(&["--base", "right"], Some((Base::Right, false))),
    Choice(&["--ambiguous=wide"], Some((Base::Auto, true))),
    Choice(
        &["--ambiguous", "wide", "--base", "left"],
        Some((Base::Left, true)),
    ),
    Choice(
        &["--base", "right", "--ambiguous", "wide"],
        Some((Base::Right, true)),
    ),
    Choice(&["--base"], None),
    Choice(&["--base", ""], None),
    Choice(&["--base", "Left"], None),
    Choice(&["--base", "rtl"], None),
    Choice(&["--ambiguous", "2"], None),
    Choice(&["--base", "left", "--base", "right"], None),
];

#[test]
fn base_and_width_of_ambiguous_characters_are_chosen(rt: HostRuntime) {
    assert_rows(&rt, CHOICES);
}

/// Whether this is the folder that is found, or what is wrong, lack of memory aside.
fn is_folder(came: &Result<String, Stop>, wanted: Result<&str, &str>) -> Result<bool, Memory> {
    match (came, wanted) {
        (Err(Stop::Memory), _) => Err(Memory),
        (Ok(folder), Ok(wanted)) => Ok(folder.as_str() == wanted),
        (Err(Stop::Usage(text)), Err(wanted)) => Ok(text.starts_with(wanted)),
        _ => Ok(false),
    }
}

/// The folder that is named, that of the environment, and the one that is found.
struct Folder(
    Option<&'static str>,
    Option<&'static [u8]>,
    Result<&'static str, &'static str>,
);

impl Row for Folder {
    fn comes_out(&self, alloc: Global) -> Result<bool, Memory> {
        let given = Given {
            words: &[],
            value: self.1,
        };
        is_folder(&folder_of(&(given, alloc), self.0), self.2)
    }
}

const FOLDERS: &[Folder] = &[
    Folder(Some("a"), None, Ok("a")),
    Folder(Some("a"), Some(b"b"), Ok("a")),
    Folder(None, Some(b"b"), Ok("b")),
    Folder(None, None, Err("error: --ucd <DIR> is left out")),
];

#[test]
fn the_command_line_names_the_folder_or_the_environment(rt: HostRuntime) {
    assert_rows(&rt, FOLDERS);
}

/// How many files were opened.
fn opened(rt: &(impl Opener + AllocGlobal), paths: &[&str]) -> Result<usize, Unread> {
    Ok(open_all(rt, paths)?.len())
}

#[test]
fn files_are_opened_in_order(rt: HostRuntime) -> Result<(), Fail> {
    let count = opened(&rt, &["/dev/null", "-", "/dev/zero"])?;
    assert_eq!(rt; count, 3);
    let faulty = opened(&rt, &["/dev/null", "/nowhere/a", "/nowhere/b"]);
    assert_unread(&rt, faulty.err(), "/nowhere/a")?;
    Ok(())
}
