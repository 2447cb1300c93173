// How much of each room belongs to the sheet on the desk.
ghost use Rattle.std.specs.Prelude.{◌≡◌, true};
ghost use Rattle.desks.specs.State.{heading_fine};
ghost use Rattle.desks.specs.Inner.Sizes.{SizesAre};

use crate::state::kept_slots;
use grid::squares::{shape_fine, squares_of};
use hatches::log::MOST_HATCHES;
use ledger::record::record_size;
use reckon::ranges::MOST_TABLE_ROWS;
use reckon::tables::{INFLOW_WIDTH, RAIN_WIDTH};
use sheet::reading::Heading;

#[derive(Clone, Copy)]
pub(crate) struct Sizes {
    pub(crate) squares: usize,
    pub(crate) rain: usize,
    pub(crate) inflow: usize,
    pub(crate) records: usize,
    pub(crate) began: usize,
}

// Whether the sizes that a heading tells are those of a sheet that the desk takes.
pub(crate) fn heading_fine(heading: Heading) -> bool
    ensures { result ≡ heading_fine heading }
{
    if !shape_fine(heading.shape) {
        return false;
    }
    if MOST_TABLE_ROWS < heading.rain_rows {
        return false;
    }
    heading.inflow_rows <= MOST_TABLE_ROWS
}

pub(crate) fn sizes_of(heading: Heading) -> Sizes
    requires { heading_fine heading ≡ true }
    ensures { SizesAre heading result }
{
    let slots = kept_slots(heading.shape);
    Sizes {
        squares: squares_of(heading.shape),
        rain: RAIN_WIDTH * heading.rain_rows,
        inflow: INFLOW_WIDTH * heading.inflow_rows,
        records: slots * record_size(heading.shape),
        began: slots * MOST_HATCHES,
    }
}
