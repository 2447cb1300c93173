// The calls for a run with level boards (document 02, #101), made as they are lent, with contracts in the document's words: what
// specs/Watched.antt says that their caller has.
ghost use Rattle.std.specs.Prelude.{length};
ghost use Rattle.ledger.specs.Runs.{plan, world};
ghost use Rattle.checks.specs.Given.{given, ground};
ghost use Rattle.exports.specs.Numbers.{rules_from, run_value_from, shape_from};
ghost use Rattle.calls.specs.Watched.{AfterBoards, AfterBoardsText, AfterFloodBoards, AfterHeld};

use display::boards::{Board, Boards, Shown};
use display::lent::run_to_boards;
use display::watch::run_boards;
use display_exports::boards::flood_run_to_boards;
use flood::run::Ran;
use grid::squares::Shape;
use ledger::runs::Run;
use levels::program::boards_of;
use programs::limits::OUT_ROOM;
use rule::rules::Rules;

pub fn after_run_boards(
    boards: Boards,
    shape: Shape,
    rules: Rules,
    run: Run,
    end: u64,
    marks: &[u8],
    beds: &[u32],
    roughness: &[u32],
    rates: &[u32],
    rain: &[u32],
    inflow: &[u32],
    depths: &mut [u32],
    lasts: &mut [u32],
    records: &mut [u32],
) -> Shown
    ensures { AfterHeld (plan shape marks.now) (given (ground rules beds.now roughness.now rates.now) rain.now inflow.now) end (world depths.old lasts.old records.old run) boards result (world depths.new lasts.new records.new result.ran.run) }
{
    run_boards(
        boards, shape, rules, run, end, marks, beds, roughness, rates, rain, inflow, depths, lasts,
        records,
    )
}

pub fn after_run_to_boards(
    boards: &mut [Board],
    shape: Shape,
    rules: Rules,
    run: Run,
    end: u64,
    marks: &[u8],
    beds: &[u32],
    roughness: &[u32],
    rates: &[u32],
    rain: &[u32],
    inflow: &[u32],
    depths: &mut [u32],
    lasts: &mut [u32],
    records: &mut [u32],
) -> Ran
    ensures { AfterBoards (plan shape marks.now) (given (ground rules beds.now roughness.now rates.now) rain.now inflow.now) end (world depths.old lasts.old records.old run) (length boards.old) boards.old result (world depths.new lasts.new records.new result.run) boards.new }
{
    run_to_boards(
        boards, shape, rules, run, end, marks, beds, roughness, rates, rain, inflow, depths, lasts,
        records,
    )
}

pub fn after_flood_run_to_boards(
    rows: usize,
    columns: usize,
    rules: &[u64],
    end: u64,
    marks: &[u8],
    beds: &[u32],
    roughness: &[u32],
    rates: &[u32],
    rain: &[u32],
    inflow: &[u32],
    depths: &mut [u32],
    lasts: &mut [u32],
    records: &mut [u32],
    run: &mut [u64],
    steps: &mut [u64],
    boards: &mut [Board],
) -> u32
    ensures { AfterFloodBoards (plan (shape_from rows columns) marks.now) (given (ground (rules_from rules.now) beds.now roughness.now rates.now) rain.now inflow.now) end (world depths.old lasts.old records.old (run_value_from run.old)) rules.now run.old steps.old boards.old result (world depths.new lasts.new records.new (run_value_from run.new)) run.new steps.new boards.new }
{
    flood_run_to_boards(
        rows, columns, rules, end, marks, beds, roughness, rates, rain, inflow, depths, lasts,
        records, run, steps, boards,
    )
}

pub fn after_boards_of(sheet: &[u8], boards: &[u8], out: &mut [u8; OUT_ROOM]) -> usize
    ensures { AfterBoardsText sheet.now boards.now out.old out.new result }
{
    boards_of(sheet, boards, out)
}
