//! The command line, read by `clap`.

use crate::request::Job;
use clap::{Arg, ArgAction, ArgMatches, Command};
use command_line::Stop;
use std::alloc::{AllocError, Global};

const ABOUT: &str = "Runs Unicode's own test files against the layout's crates.\n\n\
    For each file the first 20 cases that differ are written, and then a line that counts.";

const FOLDER_HELP: &str = "The folder of the five data files of Unicode 15.0";

const FILE_HELP: &str = "Test files: BidiTest.txt, BidiCharacterTest.txt, LineBreakTest.txt";

/// Reads the words of a command line, the program's name among them.
pub fn job<'a>(alloc: Global, words: &'a [String]) -> Result<Job<'a>, Stop> {
    match command(alloc)?.try_get_matches_from(words) {
        Ok(matches) => Ok(job_of(alloc, &matches)?),
        Err(error) => Err(Stop::of(alloc, &error)),
    }
}

fn job_of<'a>(alloc: Global, matches: &ArgMatches<'a>) -> Result<Job<'a>, AllocError> {
    let folder = matches.get_str("FOLDER").unwrap_or("");
    let paths = matches.get_strs("FILE").unwrap_or(&[]);
    Ok(Job {
        folder,
        files: paths.to_vec(alloc)?,
    })
}

fn command<'a>(alloc: Global) -> Result<Command<'a>, AllocError> {
    Command::new(alloc, "conformance")
        .about(ABOUT)
        .arg(path(alloc, "FOLDER", FOLDER_HELP).action(ArgAction::Set))?
        .arg(
            path(alloc, "FILE", FILE_HELP)
                .num_args(1..=3)
                .action(ArgAction::Append),
        )
}

/// An argument that has to be there.
fn path<'a>(alloc: Global, id: &'a str, help: &'a str) -> Arg<'a> {
    Arg::new(alloc, id).help(help).required(true)
}
