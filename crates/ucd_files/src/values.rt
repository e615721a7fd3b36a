//! How each of the five files is read.

use crate::code::{code, scalar};
use crate::entry::Entry;
use crate::fault::Cause;
use crate::fields::{bracket_kind, property_fields, property_missing};
use crate::line::next_field;
use crate::names::{BIDI_LONG_NAMES, BIDI_NAMES, EA_LONG_NAMES, EA_NAMES, LB_LONG_NAMES, LB_NAMES};
use crate::read::FileValue;
use bg_types::{Bidi, Ea, Lb};
use unicode_tables::Bracket;

#[tactic(auto, unfolding(crate::specs::Files::bidi_file))]
impl FileValue for Bidi {
    ghost use Rattle.ucd_files.specs.Files.{bidi_file};

    ghost reading = { bidi_file };

    fn fields(text: &[u8]) -> Result<Entry<Bidi>, Cause> {
        property_fields(BIDI_NAMES, text)
    }

    fn missing(line: &[u8]) -> Option<Entry<Bidi>> {
        property_missing(BIDI_NAMES, BIDI_LONG_NAMES, line)
    }
}

#[tactic(auto, unfolding(crate::specs::Files::brackets_file, crate::specs::Fields::bracket_fields))]
impl FileValue for Bracket {
    ghost use Rattle.ucd_files.specs.Files.{brackets_file};

    ghost reading = { brackets_file };

    fn fields(text: &[u8]) -> Result<Entry<Bracket>, Cause> {
        let (own, rest) = next_field(text);
        let (paired, rest) = next_field(rest);
        let (kind, _) = next_field(rest);
        if own.is_empty() || paired.is_empty() || kind.is_empty() {
            return Err(Cause::MissingField);
        }
        let own = code(own).ok_or(Cause::BadCode)?;
        let paired = scalar(paired).ok_or(Cause::BadCode)?;
        let value = bracket_kind(kind, paired).ok_or(Cause::UnknownValue)?;
        Ok(Entry {
            first: own,
            last: own,
            value,
        })
    }

    fn missing(_line: &[u8]) -> Option<Entry<Bracket>> {
        None
    }
}

#[tactic(auto, unfolding(crate::specs::Files::mirror_file, crate::specs::Fields::mirror_fields))]
impl FileValue for Option<char> {
    ghost use Rattle.ucd_files.specs.Files.{mirror_file};

    ghost reading = { mirror_file };

    fn fields(text: &[u8]) -> Result<Entry<Option<char>>, Cause> {
        let (own, rest) = next_field(text);
        let (mirrored, _) = next_field(rest);
        if own.is_empty() || mirrored.is_empty() {
            return Err(Cause::MissingField);
        }
        let own = code(own).ok_or(Cause::BadCode)?;
        let mirrored = scalar(mirrored).ok_or(Cause::BadCode)?;
        Ok(Entry {
            first: own,
            last: own,
            value: Some(mirrored),
        })
    }

    fn missing(_line: &[u8]) -> Option<Entry<Option<char>>> {
        None
    }
}

#[tactic(auto, unfolding(crate::specs::Files::lb_file))]
impl FileValue for Lb {
    ghost use Rattle.ucd_files.specs.Files.{lb_file};

    ghost reading = { lb_file };

    fn fields(text: &[u8]) -> Result<Entry<Lb>, Cause> {
        property_fields(LB_NAMES, text)
    }

    fn missing(line: &[u8]) -> Option<Entry<Lb>> {
        property_missing(LB_NAMES, LB_LONG_NAMES, line)
    }
}

#[tactic(auto, unfolding(crate::specs::Files::ea_file))]
impl FileValue for Ea {
    ghost use Rattle.ucd_files.specs.Files.{ea_file};

    ghost reading = { ea_file };

    fn fields(text: &[u8]) -> Result<Entry<Ea>, Cause> {
        property_fields(EA_NAMES, text)
    }

    fn missing(line: &[u8]) -> Option<Entry<Ea>> {
        property_missing(EA_NAMES, EA_LONG_NAMES, line)
    }
}
