//! What each character does to the levels, and which PDI matches it (BD9, X5c).

ghost use Rattle.std.specs.Prelude.{◌≡◌, ℕ, ◌-◌, ◌<◌, ◌≤◌, IfOk, OnOk, true, false, [], length, slice_index_or};
ghost use Rattle.bidi_explicit.specs.Levels.{kind};
ghost use Rattle.bg_types.specs.declared.class.Bidi.TheVariants.{L, Pdi};
ghost use Rattle.bidi_explicit.specs.Controls.{controls_from, moved, odd_before, control_by, nearest, without_nearest};
ghost use Rattle.bidi_explicit.specs.Uniform.{is_control};

use crate::class::{BLOCK, has_controls, is_control};
use crate::kind::Kind;
use crate::level::strong_level;
use bg_types::{Bidi, Memory};
use std::alloc::Global;
use std::marker::Model;

/// What a character does to the levels, and the place of the PDI that matches it.
#[derive(Clone, Copy)]
pub(crate) struct Control {
    pub(crate) kind: Kind,
    pub(crate) pdi: Option<usize>,
}

impl Control {
    /// That of a character that does nothing.
    const NONE: Control = Control {
        kind: Kind::Other,
        pdi: None,
    };
}

/// A PDI that no initiator read so far has matched, and whether what stands after it, up to the next such
/// one, is right to left.
#[derive(Clone, Copy)]
struct OpenPdi {
    place: usize,
    odd: bool,
}

/// What is known of the characters after a place.
#[derive(Drop)]
pub(crate) struct Matcher {
    pdis: Vec<OpenPdi>,
    odd: bool,
}

impl Model for Matcher {
    ghost use Rattle.std.specs.Prelude.{reverse};
    ghost use Rattle.bidi_explicit.specs.Controls.{Behind};

    ghost Value = { Behind };

    ghost view = { λ s. record { odd = s.odd; pdis = reverse s.pdis.items } };
}

impl Matcher {
    /// Nothing stands after the last place.
    pub(crate) fn new(alloc: Global) -> Matcher
        ensures { result ≡ record { odd = false; pdis = [] } }
    {
        Matcher {
            pdis: Vec::new(alloc),
            odd: false,
        }
    }

    /// Moves from the place after a character to its own place.
    fn pass(&mut self, place: usize, class: Bidi) -> Result<Control, Memory>
        ensures control { IfOk result (λ control. control ≡ control_by class self.old) }
        ensures after { OnOk result (self.new ≡ moved place class self.old) }
    {
        let kind = kind_of(self.odd, class);
        let mut pdi = None;
        match class {
            Bidi::Lri | Bidi::Rli | Bidi::Fsi => pdi = self.take_nearest(),
            Bidi::Pdi => self.open(place)?,
            Bidi::L => self.odd = false,
            Bidi::R | Bidi::Al => self.odd = true,
            _ => {}
        }
        Ok(Control { kind, pdi })
    }

    /// An initiator takes the nearest PDI.
    fn take_nearest(&mut self) -> Option<usize>
        ensures nearest { result ≡ nearest self.old.pdis }
        ensures after { self.new ≡ without_nearest self.old.pdis }
    {
        match self.pdis.pop() {
            Some(pdi) => {
                self.odd = pdi.odd;
                Some(pdi.place)
            }
            None => {
                self.odd = false;
                None
            }
        }
    }

    /// A PDI waits for its initiator.
    fn open(&mut self, place: usize) -> Result<(), Memory>
        ensures { OnOk result (self.new ≡ moved place Pdi self.old) }
    {
        self.pdis.push(OpenPdi {
            place,
            odd: self.odd,
        })?;
        self.odd = false;
        Ok(())
    }
}

/// What a class does, where FSI wants an odd level or not.
fn kind_of(odd: bool, class: Bidi) -> Kind
    ensures { result ≡ kind odd class }
{
    match class {
        Bidi::Rle => Kind::Embedding(true, None),
        Bidi::Lre => Kind::Embedding(false, None),
        Bidi::Rlo => Kind::Embedding(true, Some(Bidi::R)),
        Bidi::Lro => Kind::Embedding(false, Some(Bidi::L)),
        Bidi::Rli => Kind::Initiator(true),
        Bidi::Lri => Kind::Initiator(false),
        Bidi::Fsi => Kind::Initiator(odd),
        Bidi::Pdi => Kind::PopIsolate,
        Bidi::Pdf => Kind::PopEmbedding,
        _ => Kind::Other,
    }
}

/// Whether what stands from some classes on, none of them a control, is right to left, where `odd` says it of what stands
/// behind them.
#[inline]
fn odd_before(row: &[Bidi], odd: bool) -> bool
    ensures { result ≡ odd_before row.now odd }
{
    for class in row {
        if let Some(level) = strong_level(*class) {
            return level == 1;
        }
    }
    odd
}

/// A place from which on there is no control before `end`: blocks without one are passed.
#[inline]
fn pass_blocks(classes: &[Bidi], end: usize) -> usize
    requires { end ≤ length classes.now }
    ensures within { result ≤ end }
    ensures passed { (k : ℕ) → result ≤ k → k < end → is_control (slice_index_or classes.now k L) ≡ false }
{
    let mut start = end;
    while start >= BLOCK && !has_controls(&classes[start - BLOCK..start]) {
        start -= BLOCK;
    }
    start
}

/// The place behind the last control before `end`, or 0 where there is none.
#[inline]
fn control_end(classes: &[Bidi], end: usize) -> usize
    requires { end ≤ length classes.now }
    ensures within { result ≤ end }
    ensures passed { (k : ℕ) → result ≤ k → k < end → is_control (slice_index_or classes.now k L) ≡ false }
    ensures control { 0 < result → is_control (slice_index_or classes.now (result - 1) L) ≡ true }
{
    let mut place = pass_blocks(classes, end);
    while place > 0 && !is_control(classes[place - 1]) {
        place -= 1;
    }
    place
}

/// Puts what each character of a paragraph does into a list, in place of what it has, in one pass from the paragraph's end.
pub(crate) fn controls_into(
    controls: &mut Vec<Control>,
    matcher: &mut Matcher,
    classes: &[Bidi],
) -> Result<(), Memory>
    ensures { OnOk result (controls.new.items ≡ controls_from 0 classes.now) }
{
    controls.clear();
    controls.resize(classes.len(), Control::NONE)?;
    matcher.pdis.clear();
    matcher.odd = false;
    let mut end = classes.len();
    while end > 0 {
        let start = control_end(classes, end);
        matcher.odd = odd_before(&classes[start..end], matcher.odd);
        if start == 0 {
            return Ok(());
        }
        end = start - 1;
        controls[end] = matcher.pass(end, classes[end])?;
    }
    Ok(())
}
