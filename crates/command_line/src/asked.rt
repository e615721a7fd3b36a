//! What a command line asks for, once `clap` has read its words.

ghost use Rattle.std.specs.Prelude.{◌<◌, ◌≤◌, IfOk, vec_len};

use crate::grammar::command;
use crate::opener::INPUT;
use crate::request::{Job, Replay, Typing, Walk};
use crate::stop::Stop;
use bg_types::Base;
use caret::Move;
use clap::ArgMatches;
use op_codec::Version;
use std::alloc::Global;

const INPUT_TWICE: &str = "error: standard input can be read only once\n";

/// Reads the words of a command line, the program's name among them.
/// Cost: O(n), memory for the files and moves that the words name.
pub fn job<'a>(alloc: Global, words: &'a [String]) -> Result<Job<'a>, Stop> {
    match command(alloc)?.try_get_matches_from(words) {
        Ok(matches) => job_of(alloc, &matches),
        Err(error) => Err(Stop::of(alloc, &error)),
    }
}

/// The work of the subcommand.
fn job_of<'a>(alloc: Global, matches: &ArgMatches<'a>) -> Result<Job<'a>, Stop> {
    match matches.subcommand() {
        Some((name, asked)) => named_job(alloc, name, asked),
        None => Ok(Job::Text {
            files: Vec::new(alloc),
        }),
    }
}

/// The work of the subcommand of a name.
fn named_job<'a>(alloc: Global, name: &str, asked: &ArgMatches<'a>) -> Result<Job<'a>, Stop> {
    match name {
        "replay" => replay_job(alloc, asked),
        "caret" => caret_job(alloc, asked),
        "type" => typing_job(alloc, asked),
        "text" => Ok(Job::Text {
            files: files(alloc, asked, 1, false)?,
        }),
        _ => Ok(file_job(name, asked.get_str("FILE").unwrap_or(""))),
    }
}

/// The work of `dump`, `migrate` or `pack` over a file.
fn file_job<'a>(name: &str, file: &'a str) -> Job<'a> {
    match name {
        "dump" => Job::Dump { file },
        "migrate" => Job::Migrate { file },
        _ => Job::Pack { listing: file },
    }
}

fn replay_job<'a>(alloc: Global, replay: &ArgMatches<'a>) -> Result<Job<'a>, Stop> {
    let schedule = replay.get_str("SCHEDULE");
    Ok(Job::Replay(Replay {
        folder: replay.get_str("UCD"),
        width: width(replay),
        base: base(replay),
        wide_ambiguous: is_wide(replay),
        schedule,
        files: files(alloc, replay, 1, schedule == Some(INPUT))?,
    }))
}

fn caret_job<'a>(alloc: Global, caret: &ArgMatches<'a>) -> Result<Job<'a>, Stop> {
    Ok(Job::Caret(Walk {
        folder: caret.get_str("UCD"),
        width: width(caret),
        base: base(caret),
        wide_ambiguous: is_wide(caret),
        place: caret.get_one::<u32>("AT").unwrap_or(0),
        moves: moves(alloc, caret.get_str("MOVES").unwrap_or(""))?,
        files: files(alloc, caret, 1, false)?,
    }))
}

fn typing_job<'a>(alloc: Global, typing: &ArgMatches<'a>) -> Result<Job<'a>, Stop> {
    let text = typing.get_str("TEXT").filter(|text| *text != INPUT);
    Ok(Job::Type(Typing {
        site: site(typing),
        place: typing.get_one::<u32>("AT"),
        erased: typing.get_one::<u32>("ERASE").unwrap_or(0),
        text,
        version: match typing.get_str("VERSION") {
            Some("1") => Version::One,
            _ => Version::Two,
        },
        files: files(alloc, typing, 0, text.is_none())?,
    }))
}

/// The operation files, from a least number to 64 in all: options may stand between them. Standard
/// input is one of them at most once, and none where something else is read from it.
fn files<'a>(
    alloc: Global,
    matches: &ArgMatches<'a>,
    least: usize,
    input_is_taken: bool,
) -> Result<Vec<&'a str>, Stop>
    ensures some { IfOk result (λ files. least ≤ vec_len files) }
    ensures at_most { IfOk result (λ files. vec_len files ≤ 64) }
{
    let files = matches.get_strs("FILE").unwrap_or(&[]);
    let count = files.len();
    if count < least || count > 64 {
        return Err(Stop::Usage(format!(in alloc;
            "error: {count} values for '[FILE]...': {least} to 64 are asked for\n"
        )?));
    }
    if inputs(files) > usize::from(!input_is_taken) {
        return Err(Stop::Usage(String::from_str(alloc, INPUT_TWICE)?));
    }
    Ok(files.to_vec(alloc)?)
}

/// How many of the files are standard input.
fn inputs(files: &[&str]) -> usize {
    files.iter().filter(|file| **file == INPUT).count()
}

/// The site, which is one that an identifier can have: no other passes the table of arguments.
fn site(matches: &ArgMatches) -> u16
    ensures { 0 < result }
{
    matches.get_one::<u16>("SITE").unwrap_or(0).max(1)
}

/// The width, which is one that the grid has: no other passes the table of arguments.
fn width(matches: &ArgMatches) -> u16
    ensures at_least { 2 ≤ result }
    ensures at_most { result ≤ 500 }
{
    matches.get_one::<u16>("WIDTH").unwrap_or(0).clamp(2, 500)
}

/// The base direction that is asked for.
fn base(matches: &ArgMatches) -> Base {
    match matches.get_str("BASE") {
        Some("left") => Base::Left,
        Some("right") => Base::Right,
        _ => Base::Auto,
    }
}

/// Whether ambiguous characters are asked to be wide.
fn is_wide(matches: &ArgMatches) -> bool {
    matches.get_str("AMBIGUOUS") == Some("wide")
}

/// The moves that letters write.
fn moves(alloc: Global, letters: &str) -> Result<Vec<Move>, Stop> {
    let mut moves = Vec::new(alloc);
    for letter in letters.chars() {
        moves.push(step(alloc, letters, letter)?)?;
    }
    Ok(moves)
}

/// The move that one of these letters writes.
fn step(alloc: Global, letters: &str, letter: char) -> Result<Move, Stop> {
    match letter {
        'l' => Ok(Move::Left),
        'r' => Ok(Move::Right),
        'u' => Ok(Move::Up),
        'd' => Ok(Move::Down),
        _ => Err(Stop::Usage(format!(in alloc;
            "error: invalid value '{letters}' for '--moves <M>': '{letter}' is none of l, r, u, d\n"
        )?)),
    }
}
