//! The lines of a file.

ghost use Rattle.std.specs.Prelude.{◌≡◌};
ghost use Rattle.std.specs.Iterator.{YieldsFirstRef, item_count};
ghost use Rattle.ucd_files.specs.Line.{lines_of, lines_left};

use crate::line::place_of;

/// The lines that are left of a file.
#[derive(Drop)]
pub(crate) struct Lines<'a> {
    rest: Option<&'a [u8]>,
}

impl<'a> Lines<'a> {
    /// All lines of a file.
    pub(crate) fn of(bytes: &'a [u8]) -> Lines<'a>
        ensures { lines_left result.rest ≡ lines_of bytes.now }
    {
        Lines { rest: Some(bytes) }
    }
}

impl<'a> Iterator for Lines<'a> {
    type Item = &'a [u8];

    ghost next_gives = { YieldsFirstRef (λ s. lines_left s.rest) };

    ghost remaining = { item_count (λ s. lines_left s.rest) };

    fn next(&mut self) -> Option<&'a [u8]> {
        let text = self.rest?;
        let place = place_of(text, b'\n');
        if place == text.len() {
            self.rest = None;
            return Some(text);
        }
        self.rest = Some(&text[place + 1..]);
        Some(&text[..place])
    }
}
