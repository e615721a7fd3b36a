//! One line of a listing, read.

ghost use Rattle.std.specs.Prelude.{◌≡◌, Some, None, option_to_list, not, is_some, IfOk, IfSome, MatchResult};
ghost use Rattle.op_listing.specs.Words.{words};
ghost use Rattle.op_listing.specs.Line.{insertion_in, erasure_in, parent_has_zero, operation_fault, written_fault, line_fault};
ghost use Rattle.op_listing.specs.Listed.{line_operations};
ghost use Rattle.op_listing.specs.Field.{identifier_of, parent_place};

use crate::field::{Numbers, Parent, read_numbers, read_parent, read_scalar};
use crate::line_fault::LineFault;
use crate::words::{next_word, one_word, three_words};
use bg_types::{Id, Op, OpView, Place};

/// The operation of a line, none where the line has no words, or the line's first fault.
pub fn read_line(line: &[u8]) -> Result<Option<Op>, LineFault>
    ensures ok { IfOk result (λ op. line_operations line.now ≡ option_to_list op) }
    ensures fault { MatchResult result (λ _. line_fault line.now ≡ None) (λ fault. line_fault line.now ≡ Some fault) }
{
    let (verb, rest) = next_word(line);
    if verb.is_empty() {
        return Ok(None);
    }
    if verb == b"i".as_slice() {
        return Ok(Some(read_insertion(rest)?));
    }
    if verb == b"e".as_slice() {
        return Ok(Some(read_erasure(rest)?));
    }
    Err(LineFault::BadLine)
}

/// The insertion that the words after `i` write.
fn read_insertion(fields: &[u8]) -> Result<Op, LineFault>
    ensures ok { IfOk result (λ op. insertion_in (words fields.now) ≡ Some op) }
    ensures fault { MatchResult result (λ op. operation_fault op ≡ None)
        (λ fault. written_fault (insertion_in (words fields.now)) ≡ Some fault) }
{
    let (id_word, parent_word, ch_word) = three_words(fields).ok_or(LineFault::BadLine)?;
    let id = read_numbers(id_word).ok_or(LineFault::BadLine)?;
    let parent = read_parent(parent_word).ok_or(LineFault::BadLine)?;
    let code = read_scalar(ch_word).ok_or(LineFault::BadLine)?;
    insertion(id, &parent, code)
}

/// The deletion that the words after `e` write.
fn read_erasure(fields: &[u8]) -> Result<Op, LineFault>
    ensures ok { IfOk result (λ op. erasure_in (words fields.now) ≡ Some op) }
    ensures fault { MatchResult result (λ op. operation_fault op ≡ None)
        (λ fault. written_fault (erasure_in (words fields.now)) ≡ Some fault) }
{
    let word = one_word(fields).ok_or(LineFault::BadLine)?;
    let target = read_numbers(word).ok_or(LineFault::BadLine)?;
    let target = Id::new(target.counter, target.site).ok_or(LineFault::ZeroField)?;
    Ok(Op::erase(target))
}

/// The insertion of these parts, or what keeps it from being well formed.
#[inline(always)]
pub fn insertion(id: Numbers, parent: &Parent, code: u32) -> Result<Op, LineFault>
    ensures ok { IfOk result (λ op. op ≡ OpView.Insert (identifier_of id) (parent_place parent.now) code) }
    ensures fault { MatchResult result (λ _. operation_fault (OpView.Insert (identifier_of id) (parent_place parent.now) code) ≡ None)
        (λ fault. operation_fault (OpView.Insert (identifier_of id) (parent_place parent.now) code) ≡ Some fault) }
{
    let id = Id::new(id.counter, id.site).ok_or(LineFault::ZeroField)?;
    let place = place_in(parent).ok_or(LineFault::ZeroField)?;
    let Some(ch) = char::from_u32(code) else {
        // The parent is judged before the character.
        return Err(if place.is_before(id) {
            LineFault::NotAScalar
        } else {
            LineFault::ParentNotBefore
        });
    };
    Op::insert(id, place, ch).ok_or(LineFault::ParentNotBefore)
}

/// A parent, unless one of its numbers is 0.
fn place_in(parent: &Parent) -> Option<Place>
    ensures zero { is_some result ≡ not (parent_has_zero (parent_place parent.now)) }
    ensures value { IfSome result (λ place. place ≡ parent_place parent.now) }
{
    match parent {
        Parent::Root => Some(Place::Root),
        Parent::After(id) => Id::new(id.counter, id.site).map(Place::After),
    }
}
