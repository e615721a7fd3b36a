//! The subcommands and what each asks for, in the order of the help.

use crate::help::*;
use clap::ArgAction;
use clap::builder::ValueParser;

/// A subcommand, with what its help says.
pub struct Subcommand {
    pub name: &'static str,
    pub about: &'static str,
    pub long_about: &'static str,
    pub example: &'static str,
    pub arguments: &'static [Argument],
}

/// What a subcommand asks for, under the name by which it is read back.
pub struct Argument {
    pub id: &'static str,
    /// The name of an option, and what its value is called. A path has none.
    pub option: Option<(&'static str, &'static str)>,
    pub help: &'static str,
    pub is_required: bool,
    /// What each value has to be.
    pub value: ValueParser<'static>,
    /// The values where it is left out.
    pub defaults: &'static [&'static str],
    /// How many values one use has, 1 or more of them.
    pub most: usize,
    /// What comes of a second use.
    pub action: ArgAction,
}

pub const SUBCOMMANDS: [Subcommand; 7] = [
    Subcommand {
        name: "text",
        about: TEXT_ABOUT,
        long_about: TEXT_LONG_ABOUT,
        example: TEXT_EXAMPLE,
        arguments: &[FILES],
    },
    Subcommand {
        name: "replay",
        about: REPLAY_ABOUT,
        long_about: REPLAY_LONG_ABOUT,
        example: REPLAY_EXAMPLE,
        arguments: &[UCD, WIDTH, BASE, AMBIGUOUS, SCHEDULE, FILES],
    },
    Subcommand {
        name: "caret",
        about: CARET_ABOUT,
        long_about: CARET_LONG_ABOUT,
        example: CARET_EXAMPLE,
        arguments: &[UCD, WIDTH, BASE, AMBIGUOUS, CARET_AT, MOVES, FILES],
    },
    Subcommand {
        name: "type",
        about: TYPE_ABOUT,
        long_about: TYPE_LONG_ABOUT,
        example: TYPE_EXAMPLE,
        arguments: &[SITE, TYPE_AT, ERASE, TEXT, TYPED_VERSION, ANY_FILES],
    },
    Subcommand {
        name: "dump",
        about: DUMP_ABOUT,
        long_about: DUMP_LONG_ABOUT,
        example: DUMP_EXAMPLE,
        arguments: &[DUMP_FILE],
    },
    Subcommand {
        name: "migrate",
        about: MIGRATE_ABOUT,
        long_about: MIGRATE_LONG_ABOUT,
        example: MIGRATE_EXAMPLE,
        arguments: &[MIGRATE_FILE],
    },
    Subcommand {
        name: "pack",
        about: PACK_ABOUT,
        long_about: PACK_LONG_ABOUT,
        example: PACK_EXAMPLE,
        arguments: &[PACK_FILE],
    },
];

/// A number of characters.
const NUMBER: ValueParser<'static> = ValueParser::Signed(0, 4_294_967_295);

/// What is said once, in a word.
const WORD: Argument = Argument {
    id: "",
    option: None,
    help: "",
    is_required: false,
    value: ValueParser::String,
    defaults: &[],
    most: 1,
    action: ArgAction::Set,
};

const FILES: Argument = Argument {
    id: "FILE",
    help: FILE_HELP,
    is_required: true,
    most: 64,
    action: ArgAction::Append,
    ..WORD
};

const ANY_FILES: Argument = Argument {
    id: "FILE",
    help: ANY_FILES_HELP,
    most: 64,
    action: ArgAction::Append,
    ..WORD
};

const DUMP_FILE: Argument = Argument {
    id: "FILE",
    help: DUMP_HELP,
    is_required: true,
    ..WORD
};

const MIGRATE_FILE: Argument = Argument {
    id: "FILE",
    help: MIGRATE_HELP,
    is_required: true,
    ..WORD
};

const PACK_FILE: Argument = Argument {
    id: "FILE",
    help: PACK_HELP,
    is_required: true,
    ..WORD
};

const UCD: Argument = Argument {
    id: "UCD",
    option: Some(("ucd", "DIR")),
    help: UCD_HELP,
    ..WORD
};

const WIDTH: Argument = Argument {
    id: "WIDTH",
    option: Some(("width", "N")),
    help: WIDTH_HELP,
    is_required: true,
    value: ValueParser::Signed(2, 500),
    ..WORD
};

const BASE: Argument = Argument {
    id: "BASE",
    option: Some(("base", "DIRECTION")),
    help: BASE_HELP,
    value: ValueParser::Names(&["auto", "left", "right"]),
    defaults: &["auto"],
    ..WORD
};

const AMBIGUOUS: Argument = Argument {
    id: "AMBIGUOUS",
    option: Some(("ambiguous", "WIDTH")),
    help: AMBIGUOUS_HELP,
    value: ValueParser::Names(&["narrow", "wide"]),
    defaults: &["narrow"],
    ..WORD
};

const SCHEDULE: Argument = Argument {
    id: "SCHEDULE",
    option: Some(("schedule", "FILE")),
    help: SCHEDULE_HELP,
    ..WORD
};

const CARET_AT: Argument = Argument {
    id: "AT",
    option: Some(("at", "P")),
    help: AT_HELP,
    is_required: true,
    value: NUMBER,
    ..WORD
};

const MOVES: Argument = Argument {
    id: "MOVES",
    option: Some(("moves", "M")),
    help: MOVES_HELP,
    is_required: true,
    ..WORD
};

const SITE: Argument = Argument {
    id: "SITE",
    option: Some(("site", "S")),
    help: SITE_HELP,
    is_required: true,
    value: ValueParser::Signed(1, 65_535),
    ..WORD
};

const TYPE_AT: Argument = Argument {
    id: "AT",
    option: Some(("at", "P")),
    help: TYPE_AT_HELP,
    value: NUMBER,
    ..WORD
};

const ERASE: Argument = Argument {
    id: "ERASE",
    option: Some(("erase", "N")),
    help: ERASE_HELP,
    value: NUMBER,
    ..WORD
};

const TEXT: Argument = Argument {
    id: "TEXT",
    option: Some(("text", "WORDS")),
    help: TYPED_HELP,
    ..WORD
};

const TYPED_VERSION: Argument = Argument {
    id: "VERSION",
    option: Some(("version", "V")),
    help: TYPED_VERSION_HELP,
    value: ValueParser::Names(&["1", "2"]),
    defaults: &["2"],
    ..WORD
};
