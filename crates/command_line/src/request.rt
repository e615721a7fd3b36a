//! What a command line asks for.

ghost use Rattle.std.specs.Prelude.{◌<◌, ◌≤◌, vec_len};

use bg_types::Base;
use caret::Move;
use op_codec::Version;

/// The work to be done.
#[derive(Drop)]
pub enum Job<'a> {
    /// Write the text of the operations of these files.
    Text { files: Vec<&'a str> },
    /// Draw the texts of desks.
    Replay(Replay<'a>),
    /// Show where a caret goes.
    Caret(Walk<'a>),
    /// Write the operation file of what a site types.
    Type(Typing<'a>),
    /// Write the listing of this file.
    Dump { file: &'a str },
    /// Write this file in version 2.
    Migrate { file: &'a str },
    /// Write the file of this listing.
    Pack { listing: &'a str },
}

/// Desks to be drawn, one for each file.
#[derive(Drop)]
pub struct Replay<'a> {
    /// The folder of the five data files; that of the environment where there is none.
    pub folder: Option<&'a str>,
    /// The width of a row in columns.
    pub width: u16,
    /// The base direction of each paragraph.
    pub base: Base,
    /// Whether ambiguous characters are wide.
    pub wide_ambiguous: bool,
    /// The schedule, if there is one.
    pub schedule: Option<&'a str>,
    /// The operation files, 1 to 64 of them.
    pub files: Vec<&'a str>,
    ghost at_least: { 2 ≤ width },
    ghost at_most: { width ≤ 500 },
    ghost files_at_least: { 1 ≤ vec_len files },
    ghost files_at_most: { vec_len files ≤ 64 },
}

/// A walk of a caret over a text that is drawn.
#[derive(Drop)]
pub struct Walk<'a> {
    /// The folder of the five data files; that of the environment where there is none.
    pub folder: Option<&'a str>,
    /// The width of a row in columns.
    pub width: u16,
    /// The base direction of each paragraph.
    pub base: Base,
    /// Whether ambiguous characters are wide.
    pub wide_ambiguous: bool,
    /// Where the walk begins, in code points of the text.
    pub place: u32,
    pub moves: Vec<Move>,
    /// The operation files, 1 to 64 of them.
    pub files: Vec<&'a str>,
    ghost at_least: { 2 ≤ width },
    ghost at_most: { width ≤ 500 },
    ghost files_at_least: { 1 ≤ vec_len files },
    ghost files_at_most: { vec_len files ≤ 64 },
}

/// A change that a site makes to the text of files.
#[derive(Drop)]
pub struct Typing<'a> {
    /// The site that types.
    pub site: u16,
    /// Where, in characters of the text: its end if `None`.
    pub place: Option<u32>,
    /// How many characters are erased.
    pub erased: u32,
    /// What is typed, or `None` for standard input.
    pub text: Option<&'a str>,
    /// The version of the file that is written.
    pub version: Version,
    /// The operation files, at most 64 of them.
    pub files: Vec<&'a str>,
    ghost site_positive: { 0 < site },
    ghost files_at_most: { vec_len files ≤ 64 },
}
