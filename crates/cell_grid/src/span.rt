//! Spans of one size in a row.

ghost use Rattle.std.specs.Prelude.{◌≡◌, ◌*◌};
ghost use Rattle.cell_grid.specs.Runs.{byte_count, point_count, span_after};
ghost use Rattle.cell_grid.specs.Shifting.{StaysInReach};

use paragraphs::Span;

/// The span behind so many spans like this one, of which it is the first.
#[inline]
pub(crate) fn span_after(count: u8, span: Span) -> Span
    requires { StaysInReach (count * byte_count span) (count * point_count span) span }
    ensures { result ≡ span_after count span }
{
    let size = span.end_byte.saturating_sub(span.first_byte);
    let points = span.end_place.saturating_sub(span.first_place);
    let bytes = u32::from(count) * size;
    let places = u32::from(count) * points;
    Span {
        first_byte: span.first_byte + bytes,
        end_byte: span.end_byte + bytes,
        first_place: span.first_place + places,
        end_place: span.end_place + places,
    }
}
