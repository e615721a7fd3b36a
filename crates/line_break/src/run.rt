//! Runs of clusters of one shape.

ghost use Rattle.std.specs.Prelude.{◌≡◌, ◌+◌, ◌^◌, ◌<◌, ◌≤◌};
ghost use Rattle.line_break.specs.Runs.{alone, no_run, have_one_shape, longer};

use paragraphs::Span;

/// Clusters of a paragraph that follow each other, at least one, and have one shape: as many bytes, code points and columns
/// each.
#[derive(Clone, Copy)]
pub struct ShapeRun {
    /// Where the first one begins, counted from the paragraph's start.
    pub first_byte: u32,
    pub first_place: u32,
    /// How many there are.
    pub count: u32,
    /// How many bytes each has.
    pub bytes: u32,
    /// How many code points each has.
    pub points: u32,
    /// How many columns each has, 0 to 2.
    pub columns: u8,
}

impl ShapeRun {
    /// A run of no cluster, from which a paragraph's first one goes on.
    #[inline]
    pub(crate) fn empty() -> ShapeRun
        ensures { result ≡ no_run }
    {
        ShapeRun {
            first_byte: 0,
            first_place: 0,
            count: 0,
            bytes: 0,
            points: 0,
            columns: 0,
        }
    }

    /// A cluster alone, which stands there.
    #[inline]
    pub(crate) fn of_one(span: Span, columns: u8) -> ShapeRun
        requires bytes { span.first_byte ≤ span.end_byte }
        requires places { span.first_place ≤ span.end_place }
        ensures { result ≡ alone span columns }
    {
        ShapeRun {
            first_byte: span.first_byte,
            first_place: span.first_place,
            count: 1,
            bytes: span.end_byte - span.first_byte,
            points: span.end_place - span.first_place,
            columns,
        }
    }

    /// Whether the run goes on in one that follows it: their clusters have one shape.
    #[inline]
    pub(crate) fn goes_on(self, next: ShapeRun) -> bool
        ensures { result ≡ have_one_shape self next }
    {
        self.bytes == next.bytes && self.points == next.points && self.columns == next.columns
    }

    /// Takes one more cluster.
    #[inline]
    pub(crate) fn lengthen(&mut self)
        requires { self.old.count + 1 < 2 ^ 32 }
        ensures { self.new ≡ longer self.old }
    {
        self.count += 1;
    }
}
