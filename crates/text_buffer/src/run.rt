//! Runs of changes that are one edit.

ghost use Rattle.std.specs.Prelude.{◌≡◌, ◌<◌, ◌≤◌, ◌+◌, ◌-◌, ◌^◌, ◌++◌, ℕ, List, [], ◌∷◌, true, false, None, length, take, drop, string_bytes, IfOk, OnOk, IfSome};
ghost use Rattle.bg_types.specs.Edit.{IsInRange, changed};
ghost use Rattle.paragraphs.specs.Text.{code_points};
ghost use Rattle.text_buffer.specs.Edits.{AreInRange, EndsBefore, cuts_at, puts_at};
ghost use Rattle.text_buffer.specs.Runs.{BeginsLow, ArePut, CutsNotAt, PutsNotAt};

use bg_types::{Change, Memory};
use std::alloc::Global;

/// A run: so many changes, and the edit that stands for them. A text takes the place of what stood from one place up to
/// another.
#[derive(Drop)]
pub struct Run {
    pub count: usize,
    pub from: usize,
    pub to: usize,
    pub text: String,
}

/// The first run of some changes: characters that are cut at one place, and then others that are put there, one behind the
/// other.
pub fn first_run(alloc: Global, changes: &[Change]) -> Result<Run, Memory>
    requires some { 0 < length changes.now }
    requires low { BeginsLow changes.now }
    ensures some { IfOk result (λ run. 0 < run.count) }
    ensures within { IfOk result (λ run. run.count ≤ length changes.now) }
    ensures order { IfOk result (λ run. run.from ≤ run.to) }
    ensures run { IfOk result (λ run. take run.count changes.now ≡ cuts_at run.from (run.to - run.from) ++ puts_at run.from (code_points (string_bytes run.text))) }
    ensures whole { IfOk result (λ run. EndsBefore run.from (code_points (string_bytes run.text)) (drop run.count changes.now)) }
{
    let mut text = String::new(alloc);
    let first = changes[0];
    match first {
        Change::Put { place, ch } => {
            add(&mut text, ch)?;
            let more = puts_from(&changes[1..], place + 1, &mut text)?;
            Ok(Run {
                count: 1 + more,
                from: place,
                to: place,
                text,
            })
        }
        Change::Cut { place } => {
            let cuts = 1 + cuts_from(&changes[1..], place);
            let puts = puts_from(&changes[cuts..], place, &mut text)?;
            Ok(Run {
                count: cuts + puts,
                from: place,
                to: place + cuts,
                text,
            })
        }
    }
}

/// How many changes at the front put characters one behind the other, from a place on. The text gets them at its end.
fn puts_from(changes: &[Change], place: usize, text: &mut String) -> Result<usize, Memory>
    requires { place ≤ 4_000_001 }
    ensures within { IfOk result (λ count. count ≤ length changes.now) }
    ensures puts { IfOk result (λ count. ArePut (take count changes.now) place (code_points (string_bytes text.old)) (code_points (string_bytes text.new))) }
    ensures whole { IfOk result (λ count. PutsNotAt (place + count) (drop count changes.now)) }
{
    for (count, change) in changes.iter().enumerate() {
        match *change {
            Change::Put { place: at, ch } if at == place + count => add(text, ch)?,
            _ => return Ok(count),
        }
    }
    Ok(changes.len())
}

/// Puts a character at the end of a text.
fn add(text: &mut String, ch: char) -> Result<(), Memory>
    ensures { OnOk result (code_points (string_bytes text.new) ≡ code_points (string_bytes text.old) ++ ch ∷ []) }
{
    text.push(ch)?;
    Ok(())
}

/// How many changes at the front cut at a place.
fn cuts_from(changes: &[Change], place: usize) -> usize
    ensures within { result ≤ length changes.now }
    ensures cuts { take result changes.now ≡ cuts_at place result }
    ensures whole { CutsNotAt place (drop result changes.now) }
{
    for (count, change) in changes.iter().enumerate() {
        match *change {
            Change::Cut { place: at } if at == place => {}
            _ => return count,
        }
    }
    changes.len()
}

/// Whether each change is in range when its turn comes, of a text of so many code points.
pub fn are_in_range(len: usize, changes: &[Change]) -> bool
    requires { len ≤ 4_000_000 }
    ensures yes { result ≡ true → (text : List ℕ) → length text ≡ len → AreInRange text changes.now }
    ensures no { result ≡ false → (text : List ℕ) → length text ≡ len → AreInRange text changes.now → ⊥ }
{
    let mut now = len;
    for change in changes {
        match len_after(change, now) {
            Some(next) => now = next,
            None => return false,
        }
    }
    true
}

/// How many code points a text of so many has after a change, if that is in range.
fn len_after(change: &Change, len: usize) -> Option<usize>
    requires { len < 2 ^ 63 }
    ensures some { (text : List ℕ) → length text ≡ len → IfSome result (λ next. IsInRange text change.now × (length (changed text change.now) ≡ next)) }
    ensures none { result ≡ None → (text : List ℕ) → length text ≡ len → IsInRange text change.now → ⊥ }
    ensures few { IfSome result (λ next. next ≤ len + 1) }
{
    match *change {
        Change::Put { place, .. } => { if place <= len { Some(len + 1) } else { None } }
        Change::Cut { place } => { if place < len { Some(len - 1) } else { None } }
    }
}
