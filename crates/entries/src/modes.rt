// A mode's end.
ghost use Rattle.std.specs.Prelude.{◌≡◌, List};
ghost use Rattle.text.specs.declared.Item.TheVariants.{ModeEnd};
ghost use Rattle.refusals.specs.declared.Row.{Row};
ghost use Rattle.sheets.specs.Sheets.{sheet_of, planned, SameArrays};

use super::rows;
use sheets::{Arrays, Plan};

pub fn mode_ended(s: &[u8], arrays: &mut Arrays)
    ensures done { (all rows : List Row) → sheet_of arrays.new ≡ planned s.now all rows ModeEnd (sheet_of arrays.old) }
    ensures same { SameArrays arrays.new arrays.old }
{
    let Plan { filled, opened, .. } = arrays.plan;
    heads::titles::title(s, opened.name, filled.modes, arrays.names);
    rows::head(arrays.heads, filled.modes, opened);
    rows::frame(arrays.modes, filled, opened);
    arrays.plan.filled = heads::counts::close(filled, opened);
}
