//! The five files as one value.

ghost use Rattle.std.specs.Prelude.{◌≡◌};

use crate::bidi_brackets::BIDI_BRACKETS;
use crate::bidi_class::BIDI_CLASS;
use crate::bidi_mirroring::BIDI_MIRRORING;
use crate::east_asian_width::EAST_ASIAN_WIDTH;
use crate::line_break::LINE_BREAK;
use ucd_files::Ucd;

/// The five data files of Unicode 15.0, ranges joined and without comments, and the choice of width.
pub fn unicode_15_0(wide_ambiguous: bool) -> Ucd<'static>
    ensures bidi { result.bidi.now ≡ BIDI_CLASS.now }
    ensures brackets { result.brackets.now ≡ BIDI_BRACKETS.now }
    ensures mirror { result.mirror.now ≡ BIDI_MIRRORING.now }
    ensures lb { result.lb.now ≡ LINE_BREAK.now }
    ensures ea { result.ea.now ≡ EAST_ASIAN_WIDTH.now }
    ensures width { result.wide_ambiguous ≡ wide_ambiguous }
{
    Ucd {
        bidi: BIDI_CLASS,
        brackets: BIDI_BRACKETS,
        mirror: BIDI_MIRRORING,
        lb: LINE_BREAK,
        ea: EAST_ASIAN_WIDTH,
        wide_ambiguous,
    }
}
