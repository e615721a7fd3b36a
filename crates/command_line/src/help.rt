//! What the help of the command line says.

pub const ABOUT: &str =
    "Reads what several desks did to one text, and shows the text or draws it.\n\n\
    Several desks edit one text, and each saves what it did in operation files. Desks that have\n\
    the same operations show the same text, whatever the order in which these came.";

/// What `--version` writes after the program's name.
pub const VERSION: &str = "0.2.0, Unicode 15.0";

pub const TEXT_ABOUT: &str = "Writes the text that the operations of the files make";

pub const TEXT_LONG_ABOUT: &str =
    "Writes the text that the operations of the files make to standard output.\n\n\
    One desk takes the operations of all files. One that comes twice counts once, and one that\n\
    comes before its parent waits for it, so neither the order of the files nor repeats change\n\
    the text. Where a file is faulty, or two insertions claim one identifier, nothing is written.";

pub const TEXT_EXAMPLE: &str =
    "Example:\n  bidigrid text examples/hello/hebrew.bgop examples/hello/english.bgop";

pub const REPLAY_ABOUT: &str = "Draws the texts of desks that take and merge operations";

pub const REPLAY_LONG_ABOUT: &str =
    "Draws the texts of desks on a character grid, to standard output.\n\n\
    There are as many desks as files. A schedule says what they do, a line a step; desks, files and\n\
    the operations of a file are counted from 1:\n\n  \
    take D F N  desk D takes operation number N of file F\n  \
    merge D E   desk D takes all that desk E has\n  \
    show D      the text of desk D is drawn\n\n\
    Empty lines and lines that begin with # are skipped. Without a schedule each desk takes all\n\
    files, and then each is drawn. Desks that have the same operations are drawn the same.\n\n\
    DIR has DerivedBidiClass.txt, BidiBrackets.txt, BidiMirroring.txt, LineBreak.txt and\n\
    EastAsianWidth.txt of Unicode. Where they, a file or the schedule are faulty, nothing is\n\
    written. A step that can't be taken ends the run after the texts drawn before it.";

pub const REPLAY_EXAMPLE: &str = "Example:\n  bidigrid replay --ucd examples/ucd-small --width 24 \
    --schedule examples/three/schedule \\\n    examples/three/english.bgop \
    examples/three/hebrew.bgop examples/three/arabic.bgop";

pub const CARET_ABOUT: &str = "Shows where a caret comes to in a drawn text";

pub const CARET_LONG_ABOUT: &str =
    "Draws the text that the operations of the files make, as replay does, and writes where a caret\n\
    stands at a place of it and after each move, a line `row gap place` each, to standard output.\n\n\
    Rows and gaps are counted from 0, places in code points of the text. Gap g stands left of the\n\
    row's entry number g. A move is a letter: l left, r right, u up, d down. Left and right go as\n\
    the eye sees it, whichever way the text is read there.";

pub const CARET_EXAMPLE: &str =
    "Example:\n  bidigrid caret --ucd examples/ucd-small --width 24 --at 7 \
    --moves llr \\\n    examples/hello/english.bgop examples/hello/hebrew.bgop";

pub const AT_HELP: &str = "The place where the caret begins, in code points of the text";

pub const MOVES_HELP: &str = "The moves, a letter each: l, r, u or d";

pub const UCD_HELP: &str =
    "The folder of the five data files; if it is left out, the one that BIDIGRID_UCD names";

pub const WIDTH_HELP: &str = "The width of a row, 2 to 500 columns";

pub const BASE_HELP: &str =
    "The base direction of each paragraph; auto takes its first strong character";

pub const AMBIGUOUS_HELP: &str =
    "The width of characters that East Asian text has wide, and other text narrow";

pub const SCHEDULE_HELP: &str = "What the desks do, a line a step, or - for standard input";

pub const TYPE_ABOUT: &str = "Writes the operation file of what a site types";

pub const TYPE_LONG_ABOUT: &str =
    "Writes the operation file of what a site types to standard output: it had all operations of the\n\
    files, erased N characters from place P on, and typed the text there. Without files the text is\n\
    new. The files and the new one together are then the old text with those N characters replaced\n\
    by the typed ones, whatever the order of the files.\n\n\
    Places count characters from 0; a character is a Unicode scalar value, and whether a place parts\n\
    a letter from its marks is not asked. Who types gives all files that the site has typed before:\n\
    one site is one person. Then no two insertions share an identifier. Where the text is not UTF-8, or\n\
    a file is faulty, nothing is written. A further character has 4 bytes in version 2, 19 in version 1.";

pub const TYPE_EXAMPLE: &str = "Example:\n  bidigrid type --site 1 --text 'Hello' >hello.bgop\n  \
    bidigrid type --site 2 --at 0 --erase 1 --text J hello.bgop >jello.bgop\n  \
    bidigrid text hello.bgop jello.bgop";

pub const SITE_HELP: &str = "The site that types, 1 to 65,535";

pub const TYPE_AT_HELP: &str = "The place, in characters from 0; the text's end if it is left out";

pub const ERASE_HELP: &str = "How many characters are erased from the place on";

pub const TYPED_HELP: &str = "What is typed; standard input if it is - or left out";

pub const TYPED_VERSION_HELP: &str = "The version of the file that is written";

pub const ANY_FILES_HELP: &str = "Operation files, at most 64 of them; - is standard input";

pub const DUMP_ABOUT: &str = "Writes an operation file as a listing";

pub const DUMP_LONG_ABOUT: &str =
    "Writes an operation file to standard output as a listing, one line an operation:\n\n  \
    i C.S root X  inserts the character X at the root under the identifier (C,S)\n  \
    i C.S P.Q X   inserts it behind (P,Q)\n  \
    e C.S         erases what (C,S) inserted\n\n\
    X is in hexadecimal. The subcommand pack makes the file again.";

pub const DUMP_EXAMPLE: &str = "Example:\n  bidigrid dump examples/hello/hebrew.bgop";

pub const MIGRATE_ABOUT: &str = "Writes an operation file in version 2";

pub const MIGRATE_LONG_ABOUT: &str =
    "Writes the operation file of version 2 that has the same operations to standard output.\n\n\
    In version 2 insertions that were typed in one go are one frame, with four bytes for each\n\
    further one. It is never longer than version 1, and a file of version 2 is written as it is.\n\
    All subcommands read both versions. Where the file is faulty, nothing is written.";

pub const MIGRATE_EXAMPLE: &str =
    "Example:\n  bidigrid migrate examples/hello/hebrew.bgop >hebrew.bgop";

pub const PACK_ABOUT: &str = "Writes the operation file of a listing";

pub const PACK_LONG_ABOUT: &str = "Writes the operation file of a listing to standard output.\n\n\
    The lines are those that the subcommand dump writes. Leading zeros, more spaces, empty lines,\n\
    CR LF and a last line without LF are accepted. Where a line is faulty, nothing is written.";

pub const PACK_EXAMPLE: &str = "Example:\n  bidigrid pack examples/hello/hebrew.txt >hebrew.bgop";

pub const FILE_HELP: &str = "Operation files, 1 to 64 of them; - is standard input";

pub const DUMP_HELP: &str = "An operation file, or - for standard input";

pub const MIGRATE_HELP: &str = "An operation file of either version, or - for standard input";

pub const PACK_HELP: &str = "A listing, or - for standard input";
