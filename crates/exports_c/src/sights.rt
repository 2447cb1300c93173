// The flow arrow of a square, and the wet rows with their count, under their plain names.
ghost use Rattle.ledger.specs.Runs.{plan};
ghost use Rattle.sight.specs.Arrows.{view};
ghost use Rattle.exports.specs.Numbers.{run_value_from, shape_from};
ghost use Rattle.exports.specs.Sights.{ExportsArrow, ExportsWet};

use exports::sights;

// The flow arrow of the square in a row and a column, after the newest step kept.
#[unsafe(no_mangle)]
pub extern "C" fn flood_arrow(
    rows: usize,
    columns: usize,
    square_side: u64,
    marks: &[u8],
    depths: &[u32],
    records: &[u32],
    run: &[u64],
    row: usize,
    column: usize,
    speeds: &mut [f64],
) -> u32
    ensures { ExportsArrow (plan (shape_from rows columns) marks.now) square_side (view depths.now records.now (run_value_from run.now)) row column run.now speeds.old result speeds.new }
{
    sights::flood_arrow(
        rows,
        columns,
        square_side,
        marks,
        depths,
        records,
        run,
        row,
        column,
        speeds,
    )
}

// The wet rows, and their count.
#[unsafe(no_mangle)]
pub extern "C" fn flood_wet_rows(
    rows: usize,
    columns: usize,
    marks: &[u8],
    depths: &[u32],
    wet_depth: u32,
    wet: &mut [u64],
    count: &mut [u64],
) -> u32
    ensures { ExportsWet (plan (shape_from rows columns) marks.now) depths.now wet_depth wet.old count.old result wet.new count.new }
{
    sights::flood_wet_rows(rows, columns, marks, depths, wet_depth, wet, count)
}
