//! One line of a schedule.

ghost use Rattle.std.specs.Prelude.{◌≡◌, Some, Ok, Err, IfOk, IfSome, MatchResult};
ghost use Rattle.op_listing.specs.Words.{words};
ghost use Rattle.desk_files.specs.Files.{lists_of};
ghost use Rattle.desk_files.specs.Schedule.{count_in, is_among as is_one_of, is_comment, line_says, step_in, IsStepOf, take_of, merge_of, show_of, take_in, merge_in, show_in};

use super::step::RunStep;
use crate::schedule_fault::ScheduleFault;
use bg_types::Op;
use op_listing::{next_word, one_word, read_decimal, three_words, two_words};

/// The most digits of a number of a desk, a file or an operation, leading zeros included.
const COUNT_DIGITS: usize = 7;

/// What a line says: nothing, where it has no words or begins with `#`, else a step or the line's
/// first fault.
pub fn read_step(line: &[u8], files: &[Vec<Op>]) -> Option<Result<RunStep, ScheduleFault>>
    ensures said { result ≡ line_says (lists_of files.now) line.now }
    ensures there { IfSome result (λ said. IfOk said (IsStepOf (lists_of files.now))) }
{
    if begins_comment(line) {
        return None;
    }
    let (verb, fields) = next_word(line);
    if verb.is_empty() {
        return None;
    }
    if verb == b"take".as_slice() {
        return Some(read_take(fields, files));
    }
    if verb == b"merge".as_slice() {
        return Some(read_merge(fields, files));
    }
    if verb == b"show".as_slice() {
        return Some(read_show(fields, files));
    }
    Some(Err(ScheduleFault::UnknownStep))
}

fn begins_comment(line: &[u8]) -> bool
    ensures { result ≡ is_comment line.now }
{
    match line.first() {
        Some(first) => *first == b'#',
        None => false,
    }
}

/// The step that the words after `take` write.
fn read_take(fields: &[u8], files: &[Vec<Op>]) -> Result<RunStep, ScheduleFault>
    ensures said { MatchResult result (λ step. take_in (lists_of files.now) (words fields.now) ≡ Ok step)
        (λ fault. take_in (lists_of files.now) (words fields.now) ≡ Err fault) }
    ensures there { IfOk result (IsStepOf (lists_of files.now)) }
{
    let (desk, file, op) = three_words(fields).ok_or(ScheduleFault::WrongWords)?;
    let desk = read_count(desk).ok_or(ScheduleFault::BadNumber)?;
    let file = read_count(file).ok_or(ScheduleFault::BadNumber)?;
    let op = read_count(op).ok_or(ScheduleFault::BadNumber)?;
    if !is_among(desk, files.len()) {
        return Err(ScheduleFault::NoSuchDesk);
    }
    if !is_among(file, files.len()) {
        return Err(ScheduleFault::NoSuchFile);
    }
    if !is_among(op, files[file - 1].len()) {
        return Err(ScheduleFault::NoSuchOperation);
    }
    Ok(RunStep::Take { desk, file, op })
}

/// The step that the words after `merge` write.
fn read_merge(fields: &[u8], files: &[Vec<Op>]) -> Result<RunStep, ScheduleFault>
    ensures said { MatchResult result (λ step. merge_in (lists_of files.now) (words fields.now) ≡ Ok step)
        (λ fault. merge_in (lists_of files.now) (words fields.now) ≡ Err fault) }
    ensures there { IfOk result (IsStepOf (lists_of files.now)) }
{
    let (desk, from) = two_words(fields).ok_or(ScheduleFault::WrongWords)?;
    let desk = read_count(desk).ok_or(ScheduleFault::BadNumber)?;
    let from = read_count(from).ok_or(ScheduleFault::BadNumber)?;
    if !is_among(desk, files.len()) || !is_among(from, files.len()) {
        return Err(ScheduleFault::NoSuchDesk);
    }
    Ok(RunStep::Merge { desk, from })
}

/// The step that the words after `show` write.
fn read_show(fields: &[u8], files: &[Vec<Op>]) -> Result<RunStep, ScheduleFault>
    ensures said { MatchResult result (λ step. show_in (lists_of files.now) (words fields.now) ≡ Ok step)
        (λ fault. show_in (lists_of files.now) (words fields.now) ≡ Err fault) }
    ensures there { IfOk result (IsStepOf (lists_of files.now)) }
{
    let desk = one_word(fields).ok_or(ScheduleFault::WrongWords)?;
    let desk = read_count(desk).ok_or(ScheduleFault::BadNumber)?;
    if !is_among(desk, files.len()) {
        return Err(ScheduleFault::NoSuchDesk);
    }
    Ok(RunStep::Show { desk })
}

/// The number of a desk, a file or an operation that a word writes.
fn read_count(word: &[u8]) -> Option<usize>
    ensures { result ≡ count_in word.now }
{
    Some(read_decimal(word, COUNT_DIGITS)? as usize)
}

/// Whether a number, counted from 1, is at most `count`.
fn is_among(number: usize, count: usize) -> bool
    ensures { result ≡ is_one_of number count }
{
    1 <= number && number <= count
}
