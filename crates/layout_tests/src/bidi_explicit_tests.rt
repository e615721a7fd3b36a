//! What no clause says: worked examples, and calls that succeed.

use crate::first_paragraph::{First, FirstOf, OfParagraph};
use crate::rows::assert_rows;
use bg_types::Base::{Auto, Left, Right};
use bg_types::Bidi::L;
use bg_types::{Base, Memory};
use bidi_explicit::*;
use paragraphs::Para;
use std::alloc::{AllocError, Global};
use ucd_files::Tables;

/// Writes a paragraph's level, its places, each with its class and level or `-` where it is removed, and its sequences.
fn tell(told: &mut String, embedded: &Embedded) -> Result<(), AllocError> {
    write!(told, "{}", embedded.level())?;
    for place in embedded.places() {
        match place {
            Some(kept) => write!(told, " {:?}{}", kept.class, kept.level)?,
            None => told.push_str(" -")?,
        }
    }
    for number in 0..embedded.sequence_count() {
        told.push_str("|")?;
        tell_sequence(told, &embedded.sequence(number))?;
    }
    Ok(())
}

/// Writes a sequence's places, its level, sos and eos.
fn tell_sequence(told: &mut String, sequence: &Sequence) -> Result<(), AllocError> {
    for run in sequence.runs() {
        for place in run.start..run.end {
            write!(told, " {place}")?;
        }
    }
    let (level, sos, eos) = (sequence.level(), sequence.sos(), sequence.eos());
    write!(told, " at {level} {sos:?} {eos:?}")
}

/// What is told of a paragraph.
fn told_of(alloc: Global, embedded: &Embedded) -> Result<String, AllocError> {
    let mut told = String::new(alloc);
    tell(&mut told, embedded)?;
    Ok(told)
}

/// A base direction, and what is told of a paragraph.
struct Told(Base, &'static str);

impl OfParagraph for Told {
    fn is_of(&self, alloc: Global, tables: &Tables, para: &Para) -> Result<bool, Memory> {
        let embedded = explicit(alloc, tables, para, self.0)?;
        Ok(told_of(alloc, &embedded)?.as_str() == self.1)
    }
}

const SMALL_TEXTS: &[First<Told>] = &[
    First(
        "a\u{202E}b\u{202C}c",
        Told(Auto, "0 L0 - R1 - L0| 0 at 0 L R| 2 at 1 R R| 4 at 0 R L"),
    ),
    First(
        "a\u{2067}b!\u{2069}c",
        Told(
            Auto,
            "0 L0 Rli0 L1 On1 Pdi0 L0| 0 1 4 5 at 0 L L| 2 3 at 1 R R",
        ),
    ),
    First("", Told(Auto, "0")),
    First(
        "ab \u{5D0}\u{5D1}\u{5D2}",
        Told(Auto, "0 L0 L0 Ws0 R0 R0 R0| 0 1 2 3 4 5 at 0 L L"),
    ),
    First(
        "\u{5D0}\u{5D1} 12",
        Told(Auto, "1 R1 R1 Ws1 En1 En1| 0 1 2 3 4 at 1 R R"),
    ),
    First(
        "\u{2068}\u{5D0}\u{2069}a",
        Told(Auto, "0 Fsi0 R1 Pdi0 L0| 0 2 3 at 0 L L| 1 at 1 R R"),
    ),
    First(
        "\u{2068}\u{2067}\u{5D0}\u{2069}\u{2069}a",
        Told(
            Auto,
            "0 Fsi0 Rli2 R3 Pdi2 Pdi0 L0| 0 4 5 at 0 L L| 1 3 at 2 L L| 2 at 3 R R",
        ),
    ),
    First(
        "a\u{2068}\u{2069}b",
        Told(Auto, "0 L0 Fsi0 Pdi0 L0| 0 1 2 3 at 0 L L"),
    ),
    First(
        "a\u{2068}\u{5D0}",
        Told(Auto, "0 L0 Fsi0 R1| 0 1 at 0 L L| 2 at 1 R R"),
    ),
    First(
        "a\u{2067}b",
        Told(Auto, "0 L0 Rli0 L1| 0 1 at 0 L L| 2 at 1 R R"),
    ),
    First(
        "a\u{2069}\u{5D0}",
        Told(Auto, "0 L0 Pdi0 R0| 0 1 2 at 0 L L"),
    ),
    First("\u{2069}\u{5D0}", Told(Auto, "1 Pdi1 R1| 0 1 at 1 R R")),
    First(
        "\u{202B}ab\u{202C}",
        Told(Auto, "0 - L1 L1 -| 1 2 at 1 R R"),
    ),
    First(
        "\u{202B}a\u{2066}\u{202C}b\u{2069}c\u{202C}d",
        Told(
            Auto,
            "0 - L1 Lri1 - L2 Pdi1 L1 - L0| 1 2 5 6 at 1 R R| 4 at 2 L L| 8 at 0 R L",
        ),
    ),
    First(
        "a\u{2067}\u{202B}\u{5D0}\u{2069}b",
        Told(Auto, "0 L0 Rli0 - R3 Pdi0 L0| 0 1 4 5 at 0 L L| 3 at 3 R R"),
    ),
    First(
        "\u{202B}\u{202A}a\r\n",
        Told(Auto, "0 - - L2 B0 B0| 2 at 2 L L| 3 4 at 0 L L"),
    ),
    First(
        "\u{200B}a\u{200B}\u{202B}b\u{200B}\u{202C}\u{200B}",
        Told(Auto, "0 - L0 - - L1 - - -| 1 at 0 L R| 4 at 1 R R"),
    ),
    First(
        "\u{202E}a\u{2067}b\u{2069}c\u{202C}",
        Told(Auto, "0 - R1 R1 L3 R1 R1 -| 1 2 4 5 at 1 R R| 3 at 3 R R"),
    ),
    First(
        "\u{202D}a\u{5D0}\u{202C}\u{5D0}",
        Told(Auto, "0 - L2 L2 - R0| 1 2 at 2 L L| 4 at 0 L L"),
    ),
    First(
        "a\u{2067}b\u{2069}\u{2067}c\u{2069}d",
        Told(
            Auto,
            "0 L0 Rli0 L1 Pdi0 Rli0 L1 Pdi0 L0| 0 1 3 4 6 7 at 0 L L| 2 at 1 R R| 5 at 1 R R",
        ),
    ),
    First(
        "a\u{2067}\u{2066}\u{2069}\u{2069}b",
        Told(
            Auto,
            "0 L0 Rli0 Lri1 Pdi1 Pdi0 L0| 0 1 4 5 at 0 L L| 2 3 at 1 R R",
        ),
    ),
    First(
        "a\u{2067}\u{200B}\u{2069}b",
        Told(Auto, "0 L0 Rli0 - Pdi0 L0| 0 1 3 4 at 0 L L"),
    ),
];

#[test]
fn embeddings_isolates_and_removed_places(rt: HostRuntime) {
    assert_rows(&rt, SMALL_TEXTS);
}

const UNDER_A_BASE: &[First<Told>] = &[
    First("", Told(Right, "1")),
    First("a!", Told(Right, "1 L1 On1| 0 1 at 1 R R")),
    First("\n", Told(Right, "1 B1| 0 at 1 R R")),
    First("\u{202B}\u{202C}", Told(Right, "1 - -")),
    First("\u{202A}a", Told(Right, "1 - L2| 1 at 2 L L")),
    First(
        "\u{2068}\u{5D0}\u{2069}a",
        Told(Right, "1 Fsi1 R3 Pdi1 L1| 0 2 3 at 1 R R| 1 at 3 R R"),
    ),
    First(
        "\u{2068}a\u{2069}",
        Told(Right, "1 Fsi1 L2 Pdi1| 0 2 at 1 R R| 1 at 2 L L"),
    ),
    First("", Told(Left, "0")),
    First("\u{5D0}!", Told(Left, "0 R0 On0| 0 1 at 0 L L")),
    First("\n", Told(Left, "0 B0| 0 at 0 L L")),
    First("\u{202B}\u{202C}", Told(Left, "0 - -")),
    First(
        "\u{5D0}\u{2068}\u{5D0}\u{2069}",
        Told(Left, "0 R0 Fsi0 R1 Pdi0| 0 1 3 at 0 L L| 2 at 1 R R"),
    ),
];

/// An FSI takes its direction from its content, whatever the base is.
#[test]
fn a_base_gives_the_level_of_each_paragraph(rt: HostRuntime) {
    assert_rows(&rt, UNDER_A_BASE);
}

/// The end of what is told of a paragraph.
struct ToldLast(&'static str);

impl OfParagraph for ToldLast {
    fn is_of(&self, alloc: Global, tables: &Tables, para: &Para) -> Result<bool, Memory> {
        let embedded = explicit(alloc, tables, para, Auto)?;
        Ok(told_of(alloc, &embedded)?.as_str().ends_with(self.0))
    }
}

const DEEP: &[FirstOf<ToldLast>] = &[
    FirstOf(
        &[("\u{202B}", 63), ("a", 1)],
        ToldLast(" - L125| 63 at 125 R R"),
    ),
    FirstOf(
        &[("\u{202B}", 64), ("a", 1)],
        ToldLast(" - L125| 64 at 125 R R"),
    ),
    FirstOf(
        &[("\u{202B}", 63), ("\u{2067}\u{202C}\u{2069}a", 1)],
        ToldLast(" - Rli125 - Pdi125 L125| 63 65 66 at 125 R R"),
    ),
];

#[test]
fn the_greatest_depth(rt: HostRuntime) {
    assert_rows(&rt, DEEP);
}

/// What is seen of 130 isolates around a letter.
struct Isolates;

/// How many places a sequence has.
fn count_of(sequence: &Sequence) -> usize {
    let mut count = 0usize;
    for run in sequence.runs() {
        count = count.saturating_add(run.end.saturating_sub(run.start));
    }
    count
}

/// Whether the letter has the greatest level, and the isolates that fit have sequences.
fn are_isolates(embedded: &Embedded) -> bool {
    let Some(Some(letter)) = embedded.places().get(130) else {
        return false;
    };
    letter.level == 125
        && letter.class == L
        && embedded.sequence_count() == 64
        && count_of(&embedded.sequence(63)) == 135
}

/// Whether this is told of a sequence that is there.
fn is_told(
    alloc: Global,
    embedded: &Embedded,
    number: usize,
    wanted: &str,
) -> Result<bool, AllocError> {
    let mut told = String::new(alloc);
    if number < embedded.sequence_count() {
        tell_sequence(&mut told, &embedded.sequence(number))?;
    }
    Ok(told.as_str() == wanted)
}

impl OfParagraph for Isolates {
    fn is_of(&self, alloc: Global, tables: &Tables, para: &Para) -> Result<bool, Memory> {
        let embedded = explicit(alloc, tables, para, Auto)?;
        Ok(
            are_isolates(&embedded)
                && is_told(alloc, &embedded, 0, " 0 260 at 0 L L")?
                && is_told(alloc, &embedded, 62, " 62 198 at 123 R R")?,
        )
    }
}

const ISOLATES: &[FirstOf<Isolates>] = &[FirstOf(
    &[("\u{2067}", 130), ("a", 1), ("\u{2069}", 130)],
    Isolates,
)];

#[test]
fn isolates_beyond_the_greatest_depth(rt: HostRuntime) {
    assert_rows(&rt, ISOLATES);
}

/// The level that a paragraph has by itself.
struct OwnLevel(u8);

impl OfParagraph for OwnLevel {
    fn is_of(&self, _alloc: Global, tables: &Tables, para: &Para) -> Result<bool, Memory> {
        Ok(
            paragraph_level(tables, para, Auto) == self.0
                && paragraph_level(tables, para, Left) == 0
                && paragraph_level(tables, para, Right) == 1,
        )
    }
}

const LEVELS: &[First<OwnLevel>] = &[
    First("", OwnLevel(0)),
    First("1\u{627}", OwnLevel(1)),
    First("\u{2067}\u{5D0}\u{2069}a", OwnLevel(0)),
    First("\u{2067}\u{5D0}", OwnLevel(0)),
    First("\u{2069}\u{5D0}a", OwnLevel(1)),
];

#[test]
fn paragraph_levels_take_no_memory(rt: HostRuntime) {
    assert_rows(&rt, LEVELS);
}
