// A run to an end with a lent list of boards, under its plain name.
ghost use Rattle.std.specs.Prelude.{length};
ghost use Rattle.ledger.specs.Runs.{plan, world};
ghost use Rattle.checks.specs.Given.{ground, given};
ghost use Rattle.exports.specs.Numbers.{rules_from, run_value_from, shape_from};
ghost use Rattle.display_exports.specs.Boards.{ExportsBoards};

use display::boards::Board;
use display_exports::boards;

// Steps by the wet walk to an end of the clock, and how many were made, with a list of boards refreshed at the start and after each step.
#[unsafe(no_mangle)]
pub extern "C" fn flood_run_to_boards(
    rows: usize,
    columns: usize,
    rules: &[u64],
    end: u64,
    marks: &[u8],
    beds: &[u32],
    roughness: &[u32],
    rates: &[u32],
    rain: &[u32],
    inflow: &[u32],
    depths: &mut [u32],
    lasts: &mut [u32],
    records: &mut [u32],
    run: &mut [u64],
    steps: &mut [u64],
    boards: &mut [Board],
) -> u32
    ensures { ExportsBoards (plan (shape_from rows columns) marks.now) (given (ground (rules_from rules.now) beds.now roughness.now rates.now) rain.now inflow.now) end (world depths.old lasts.old records.old (run_value_from run.old)) (length boards.old) boards.old rules.now run.old steps.old result depths.new lasts.new records.new run.new steps.new boards.new }
{
    boards::flood_run_to_boards(
        rows, columns, rules, end, marks, beds, roughness, rates, rain, inflow, depths, lasts,
        records, run, steps, boards,
    )
}
