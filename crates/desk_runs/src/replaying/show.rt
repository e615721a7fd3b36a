//! The print of a desk's text.

ghost use Rattle.std.specs.Prelude.{◌≡◌, false};
ghost use Rattle.rga_tree.specs.TextOf.{text};
ghost use Rattle.desk_runs.specs.Setting.{print_in};
ghost use Rattle.desk_runs.specs.Shows.{IsShowOutcome};

use super::setting::Setting;
use bg_types::Sink;
use desk_files::{Desk, RunFault, read_text};
use view_cache::View;

/// Writes the print of the grid of a desk's text, which a view makes of what it keeps.
pub fn show<S: Sink>(
    setting: &Setting,
    view: &mut View,
    desk: &Desk,
    out: &mut S,
) -> Result<(), RunFault>
    requires tables { view.old.tables ≡ setting.now.tables.now }
    requires working { S.has_failed out.old ≡ false }
    ensures shown { IsShowOutcome (print_in setting.now (text desk.now.set)) (S.written out.old) (S.written out.new) (S.has_failed out.new) result }
    ensures tables { view.new.tables ≡ view.old.tables }
{
    let text = read_text(desk)?;
    let print = view.printed(setting.width, setting.base, text.as_str())?;
    print.write(out)?;
    Ok(())
}
