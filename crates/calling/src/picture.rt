//! Pictures: a text drawn by a view, and printed.

ghost use Rattle.std.specs.Prelude.{◌≡◌, false, IfOk, OnOk};
ghost use Rattle.std.specs.Io.KnownBytes.{Appends};
ghost use Rattle.cell_grid.specs.Print.{printed};
ghost use Rattle.calling.specs.Picture.{picture_of};

use crate::fault::Fault;
use bg_types::{Base, Sink};
use cell_grid::{Grid, print};
use view_cache::View;

/// The columns of a row.
const WIDTH: u16 = 12;

/// The most bytes that are drawn.
const LONGEST: usize = 4_000_000;

/// Draws a text. The view lays out only the paragraphs that it has not kept from earlier draws, and the
/// grid is the same as if it had kept none.
#[tactic(auto, unfolding(crate::specs::Picture::picture_of))]
pub fn picture<'a, 't>(view: &mut View<'a>, text: &'t str) -> Result<Grid<'t>, Fault>
where
    'a: 't,
    ensures grid { IfOk result (λ grid. grid ≡ picture_of view.old.tables text.now) }
    ensures tables { view.new.tables ≡ view.old.tables }
{
    if text.len() > LONGEST {
        return Err(Fault::TooLong);
    }
    let grid = view.draw(WIDTH, Base::Auto, text)?;
    Ok(grid)
}

/// Writes a grid: its cells, and a line feed after each row.
pub fn show<S: Sink>(grid: &Grid, out: &mut S) -> Result<(), Fault>
    requires { S.has_failed out.old ≡ false }
    ensures written { OnOk result (Appends (S.written out.old) (S.written out.new) (printed grid.now)) }
    ensures working { OnOk result (S.has_failed out.new ≡ false) }
{
    print(grid, out)?;
    Ok(())
}
