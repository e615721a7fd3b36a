//! The rows that are kept of a paragraph.

ghost use Rattle.std.specs.Prelude.{◌≡◌, ◌≤◌, length};
ghost use Rattle.live_document.specs.Keeping.{rows_weight, Weigh};

use cell_grid::Row;
use std::marker::Model;
use text_buffer::Weighed;

/// How many bytes a row has.
pub const ROW_BYTES: usize = 48;

/// How many bytes each of its runs of like clusters has.
const RUN_BYTES: usize = 14;

/// The rows of a paragraph, counted from its start, and what they weigh.
#[derive(Drop)]
pub struct ParagraphRows {
    rows: Vec<Row>,
    weight: usize,
}

impl Model for ParagraphRows {
    ghost use Rattle.std.specs.Prelude.{List};
    ghost use Rattle.cell_grid.specs.Rows.{DrawnRow};

    ghost Value = { List DrawnRow };

    ghost use Rattle.live_document.specs.Keeping.{Weigh};

    ghost view = { λ p. p.rows.items };

    ghost invariant = { λ p. Weigh p.rows.items p.weight };
}

impl ParagraphRows {
    pub fn of(rows: Vec<Row>) -> ParagraphRows
        requires few { length rows.items ≤ 5_000_000 }
        ensures { result ≡ rows.items }
    {
        let mut weight = 0;
        for row in &rows {
            weight += ROW_BYTES + RUN_BYTES * row.run_count();
        }
        ParagraphRows { rows, weight }
    }

    #[inline]
    pub fn as_slice(&self) -> &[Row]
        ensures { result.now ≡ self.now }
    {
        self.rows.as_slice()
    }

    /// What they weigh, in bytes: each one, and each of its runs of like clusters.
    #[inline]
    pub fn total(&self) -> usize
        ensures { Weigh self.now result }
    {
        self.weight
    }
}

impl Weighed for ParagraphRows {
    ghost weight = { rows_weight };

    #[inline]
    fn weight(&self) -> usize {
        self.weight
    }
}
