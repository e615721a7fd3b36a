//! What a line says, by the fields that its file names.

ghost use Rattle.std.specs.Prelude.{◌≡◌, ◌++◌};
ghost use Rattle.ucd_files.specs.Names.{named, name_table};
ghost use Rattle.ucd_files.specs.BracketKind.{bracket_kind};
ghost use Rattle.ucd_files.specs.Fields.{entry_with, property_fields, property_missing};

use crate::code::{has_dots, range};
use crate::entry::Entry;
use crate::fault::Cause;
use crate::line::{comment_of, has_two_fields, next_field};
use crate::names::value_named;
use unicode_tables::Bracket;

/// What a code or a range says, with the value of a name.
fn entry<V: Copy>(codes: &[u8], value: Option<V>) -> Result<Entry<V>, Cause>
    ensures { result ≡ entry_with codes.now value }
{
    let (first, last) = range(codes)?;
    let value = value.ok_or(Cause::UnknownValue)?;
    Ok(Entry { first, last, value })
}

/// The fields of bidi, lb and ea.
#[tactic(auto, unfolding(crate::specs::Fields::property_fields))]
pub(crate) fn property_fields<V: Copy>(names: &[(&[u8], V)], text: &[u8]) -> Result<Entry<V>, Cause>
    ensures { result ≡ property_fields (named (name_table names.now)) text.now }
{
    let (codes, rest) = next_field(text);
    let (name, _) = next_field(rest);
    if codes.is_empty() || name.is_empty() {
        return Err(Cause::MissingField);
    }
    entry(codes, value_named(names, name))
}

/// The default that the comment of a line of bidi, lb or ea gives.
#[tactic(auto, using(crate::proofs::Named::named_append), unfolding(crate::specs::Fields::property_missing, crate::specs::Fields::missing_fields))]
pub(crate) fn property_missing<V: Copy>(
    names: &[(&[u8], V)],
    long_names: &[(&[u8], V)],
    line: &[u8],
) -> Option<Entry<V>>
    ensures { result ≡ property_missing (named (name_table names.now ++ name_table long_names.now)) line.now }
{
    let text = comment_of(line).strip_prefix(b"@missing:")?;
    let (codes, rest) = next_field(text);
    let (name, _) = next_field(rest);
    if !has_two_fields(text) || !has_dots(codes) {
        return None;
    }
    let value = value_named(names, name).or(value_named(long_names, name));
    entry(codes, value).ok()
}

/// The third field of brackets, with the paired character.
#[tactic(auto, unfolding(crate::specs::BracketKind::bracket_kind))]
pub(crate) fn bracket_kind(kind: &[u8], paired: char) -> Option<Bracket>
    ensures { result ≡ bracket_kind kind.now paired }
{
    if kind == b"o".as_slice() {
        return Some(Bracket::Open(paired));
    }
    if kind == b"c".as_slice() {
        return Some(Bracket::Close(paired));
    }
    None
}
