//! Where clusters stand, as a row keeps it.

ghost use Rattle.std.specs.Prelude.{◌≡◌, ◌+◌, ◌*◌, ◌/◌, ◌%◌, ◌^◌, ◌<◌, true};
ghost use Rattle.cell_grid.specs.KeptSpans.{number_of, high_of, points_of, span_kept, kept_later, IsShort};
ghost use Rattle.cell_grid.specs.Runs.{byte_count};
ghost use Rattle.cell_grid.specs.Shifting.{MayShift};

use paragraphs::Span;
use std::mem::size_of;

/// A number has 22 bits: its low 16, which have so many values, stand alone, and its high 6 in a byte.
const LOW: u32 = 65_536;

/// How many values the 2 bits below them have.
const SHARE: u32 = 4;

/// A span whose numbers have at most 22 bits, and how many more of its size follow it, in 12 bytes.
#[derive(Clone, Copy)]
pub(crate) struct KeptSpan {
    /// The low bits of where it begins.
    byte: u16,
    /// The low bits of the place where it begins.
    place: u16,
    /// The low bits of how many bytes it has.
    bytes: u16,
    /// The low bits of how many code points it has.
    points: u16,
    /// The high bits of the first three, and below each two of those of the last.
    byte_high: u8,
    place_high: u8,
    bytes_high: u8,
    /// It is no part of the span, but stands here, as no byte would be left for it elsewhere.
    pub(crate) further: u8,
}

const _: () = prove!(size_of::<KeptSpan>() == 12);

/// The low bits of a number.
#[inline]
fn low(number: u32) -> u16
    ensures { result ≡ number % 65_536 }
{
    (number % LOW) as u16
}

/// The high bits of a number beside 2 others.
#[inline]
fn high(number: u32, share: u32) -> u8
    requires number { number < 2 ^ 22 }
    requires share { share < 4 }
    ensures { result ≡ high_of number share }
{
    (number / LOW * SHARE + share) as u8
}

/// The number of which these are the low bits, and the byte with the high ones.
#[inline]
fn whole(low: u16, high: u8) -> u32
    ensures { result ≡ number_of low high }
{
    u32::from(high) / SHARE * LOW + u32::from(low)
}

impl KeptSpan {
    /// What is stored of a span that so many of its size follow.
    #[inline]
    pub(crate) fn of(span: Span, further: u8) -> KeptSpan
        requires { IsShort span }
        ensures span { span_kept result ≡ span }
        ensures further { result.further ≡ further }
    {
        let bytes = span.end_byte - span.first_byte;
        let points = span.end_place - span.first_place;
        let share = points / LOW;
        KeptSpan {
            byte: low(span.first_byte),
            place: low(span.first_place),
            bytes: low(bytes),
            points: low(points),
            byte_high: high(span.first_byte, share % SHARE),
            place_high: high(span.first_place, share / SHARE % SHARE),
            bytes_high: high(bytes, share / (SHARE * SHARE)),
            further,
        }
    }

    /// The span that is stored.
    #[inline]
    pub(crate) fn read(self) -> Span
        ensures { result ≡ span_kept self }
    {
        let first_byte = whole(self.byte, self.byte_high);
        let first_place = whole(self.place, self.place_high);
        Span {
            first_byte,
            end_byte: first_byte + whole(self.bytes, self.bytes_high),
            first_place,
            end_place: first_place + self.points(),
        }
    }

    /// How many code points it has.
    #[inline]
    fn points(self) -> u32
        ensures { result ≡ points_of self }
    {
        let first = u32::from(self.byte_high) % SHARE;
        let second = u32::from(self.place_high) % SHARE * SHARE;
        let third = u32::from(self.bytes_high) % SHARE * (SHARE * SHARE);
        (first + second + third) * LOW + u32::from(self.points)
    }

    /// Whether their low bits tell that another span has another size. They are in most cases what differs.
    #[inline]
    pub(crate) fn differs_in_size(self, other: KeptSpan) -> bool
        ensures { result ≡ true → ¬ (byte_count (span_kept self) ≡ byte_count (span_kept other)) }
    {
        self.bytes != other.bytes
    }

    /// What is stored of the span this many bytes and places later.
    #[inline]
    pub(crate) fn later(self, bytes: u32, places: u32) -> KeptSpan
        requires { MayShift bytes places (span_kept self) }
        ensures { result ≡ kept_later bytes places self }
    {
        let byte = whole(self.byte, self.byte_high) + bytes;
        let place = whole(self.place, self.place_high) + places;
        KeptSpan {
            byte: low(byte),
            place: low(place),
            bytes: self.bytes,
            points: self.points,
            byte_high: high(byte, u32::from(self.byte_high) % SHARE),
            place_high: high(place, u32::from(self.place_high) % SHARE),
            bytes_high: self.bytes_high,
            further: self.further,
        }
    }
}
