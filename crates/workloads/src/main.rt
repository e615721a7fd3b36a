//! The work that a user of the core waits for, on inputs made by chance, for measuring its time.
//!
//! `workloads NAME SEED [SHARE]` does the work of this name, or of all names at `all`, and writes a digest of its
//! results. Each seed gives other inputs of the same kind and size; with a share they are so many times smaller.
//!
//! `workloads keys FOLLOWS WAY COUNT` presses keys in the text on standard input, and writes for each the nanoseconds that it took
//! with what follows it, and a number that sums up what is shown; `workloads once WHAT` pastes or opens that text, and writes
//! what each part took. `workloads --help` lists its words.
#![tactic(auto)]

mod keystroke;
mod once;
mod timed;

use anyhow::{Result, bail};
use desk_workloads::{Digest, early, listing, live, open};
use std::alloc::Global;
use std::{env, io};
use view_workloads::{draw, edit, meet};

const NAMES: [&str; 8] = [
    "open",
    "early",
    "live",
    "meet",
    "draw",
    "edit",
    "listing",
    "keystroke",
];

const USAGE: &str = "usage: workloads NAME SEED [SHARE]
       workloads keys window|kept|draw|nothing bursts|elsewhere|remote|corrected COUNT <TEXT
       workloads once paste|open <TEXT";

/// Does the work of a name.
fn run(alloc: Global, name: &str, seed: u32, share: usize, digest: &mut Digest) -> Result<()> {
    match name {
        "open" => open::open(alloc, seed, share, digest),
        "early" => early::early(alloc, seed, share, digest),
        "live" => live::live(alloc, seed, share, digest),
        "meet" => meet::meet(alloc, seed, share, digest),
        "draw" => draw::draw(alloc, seed, share, digest),
        "edit" => edit::edit(alloc, seed, share, digest),
        "listing" => listing::listing(alloc, seed, share, digest),
        "keystroke" => keystroke::keystroke(alloc, seed, share, digest),
        _ => bail!("no such work"),
    }
}

/// Does the works of a name, and writes a digest of each.
fn digests(rt: &HostRuntime, name: &str, seed: u32, share: usize) -> Result<()> {
    for each in NAMES {
        if name == "all" || name == each {
            let mut digest = Digest::new();
            run(rt.alloc(), each, seed, share, &mut digest)?;
            println!(rt; "{each} {:016x}", digest.value())?;
        }
    }
    Ok(())
}

/// A word of the command line.
fn word(words: &[String], n: usize) -> Result<&str> {
    match words.get(n) {
        Some(word) => Ok(word.as_str()),
        None => bail!("{USAGE}"),
    }
}

/// Pastes or opens the text on standard input.
fn do_once(rt: &HostRuntime, what: &str) -> Result<()> {
    let text = io::read_to_string(rt.alloc(), rt.reader())?;
    match what {
        "paste" => once::paste(rt, &text),
        "open" => once::open(rt, &text),
        _ => bail!("{USAGE}"),
    }
}

/// Does what the words say.
fn work(rt: &HostRuntime, words: &[String]) -> Result<()> {
    match word(words, 0)? {
        "--help" | "-h" => println!(rt; "{USAGE}")?,
        "keys" => {
            let count = word(words, 3)?.parse::<usize>()?;
            let text = io::read_to_string(rt.alloc(), rt.reader())?;
            timed::keys(rt, word(words, 1)?, word(words, 2)?, count, &text)?;
        }
        "once" => do_once(rt, word(words, 1)?)?,
        name => {
            let seed = word(words, 1)?.parse::<u32>()?;
            let share = match words.get(2) {
                Some(word) => word.as_str().parse::<usize>()?.max(1),
                None => 1,
            };
            digests(rt, name, seed, share)?;
        }
    }
    Ok(())
}

fn main(rt: HostRuntime) -> Result<()> {
    let words = env::args(&rt)?.skip(1).collect::<Vec<String>>(rt.alloc())?;
    work(&rt, &words)
}
