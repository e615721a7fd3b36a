//! The command line as `clap` is given it, from the table of the subcommands.

use crate::help::{ABOUT, VERSION};
use crate::table::{Argument, SUBCOMMANDS, Subcommand};
use clap::{Arg, Command};
use std::alloc::{AllocError, Global};

/// The program, with its subcommands.
pub fn command<'a>(alloc: Global) -> Result<Command<'a>, AllocError> {
    let subcommands = subcommands(alloc)?;
    Command::new(alloc, "bidigrid")
        .about(ABOUT)
        .version(VERSION)
        .subcommand_required(true)
        .subcommands(subcommands)?
        .bin_name("bidigrid")
}

fn subcommands<'a>(alloc: Global) -> Result<Vec<Command<'a>>, AllocError> {
    let mut commands = Vec::new(alloc);
    for row in SUBCOMMANDS.as_slice() {
        commands.push(subcommand(alloc, row)?)?;
    }
    Ok(commands)
}

/// A subcommand, with what its help says and what it asks for.
fn subcommand<'a>(alloc: Global, row: &Subcommand) -> Result<Command<'a>, AllocError> {
    let args = args(alloc, row.arguments)?;
    Command::new(alloc, row.name)
        .about(row.about)
        .long_about(row.long_about)
        .after_help(row.example)
        .args(args)
}

fn args<'a>(alloc: Global, rows: &[Argument]) -> Result<Vec<Arg<'a>>, AllocError> {
    let mut args = Vec::new(alloc);
    for row in rows {
        args.push(arg(alloc, row))?;
    }
    Ok(args)
}

fn arg<'a>(alloc: Global, row: &Argument) -> Arg<'a> {
    let arg = Arg::new(alloc, row.id)
        .help(row.help)
        .required(row.is_required)
        .value_parser(row.value)
        .default_values(row.defaults)
        .num_args(1..=row.most)
        .action(row.action);
    match row.option {
        Some((name, value)) => arg.long(name).value_name(value),
        None => arg,
    }
}
