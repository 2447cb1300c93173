// Each public call of the libraries, made as it is lent, with a contract in the letter's words: what specs/Library.antt says that its caller has.
// A call whose own contract said less would be refused here.
ghost use Rattle.ledger.specs.Runs.{plan, world, seen_of};
ghost use Rattle.ledger.specs.Record.{ring_of};
ghost use Rattle.checks.specs.Given.{given, ground};
ghost use Rattle.checks.specs.Refusals.{run_checks, step_checks};
ghost use Rattle.sight.specs.AllArrows.{sights};
ghost use Rattle.sight.specs.Arrows.{view};
ghost use Rattle.sheet.specs.Sheet.{rooms};
ghost use Rattle.demands.specs.Table.{TableSays};
ghost use Rattle.demands.specs.Played.{run_after};
ghost use Rattle.calls.specs.Library.{AfterAllArrows, AfterArrow, AfterBack, AfterBounds, AfterFresh, AfterMeadow, AfterRead, AfterRun, AfterStep, AfterWet};

use checks::bounds::{Bounds, step_bounds};
use checks::fresh::fresh;
use checks::refusals::{check, check_step};
use flood::run::{Ran, run_to};
use flood::step::step;
use grid::squares::Shape;
use grid::walks::Walk;
use ledger::runs::{Answer, Run};
use ledger::take_back::take_back;
use programs::limits::OUT_ROOM;
use programs::meadow::meadow_of;
use rule::rules::Rules;
use sheet::reading::{Sheet, read};
use sight::all_arrows::all_arrows;
use sight::arrows::{Sight, arrow};
use sight::wet_rows::{Wet, wet_rows};

// ---- steps, runs and take-backs

pub fn after_step(
    walk: Walk,
    shape: Shape,
    rules: Rules,
    run: Run,
    marks: &[u8],
    beds: &[u32],
    roughness: &[u32],
    rates: &[u32],
    rain: &[u32],
    inflow: &[u32],
    depths: &mut [u32],
    lasts: &mut [u32],
    records: &mut [u32],
) -> Answer
    ensures { AfterStep (plan shape marks.now) (given (ground rules beds.now roughness.now rates.now) rain.now inflow.now) (world depths.old lasts.old records.old run) result (world depths.new lasts.new records.new (run_after result run)) }
{
    step(
        walk, shape, rules, run, marks, beds, roughness, rates, rain, inflow, depths, lasts,
        records,
    )
}

pub fn after_run_to(
    walk: Walk,
    shape: Shape,
    rules: Rules,
    run: Run,
    end: u64,
    marks: &[u8],
    beds: &[u32],
    roughness: &[u32],
    rates: &[u32],
    rain: &[u32],
    inflow: &[u32],
    depths: &mut [u32],
    lasts: &mut [u32],
    records: &mut [u32],
) -> Ran
    ensures { AfterRun (plan shape marks.now) (given (ground rules beds.now roughness.now rates.now) rain.now inflow.now) end (world depths.old lasts.old records.old run) result (world depths.new lasts.new records.new result.run) }
{
    run_to(
        walk, shape, rules, run, end, marks, beds, roughness, rates, rain, inflow, depths, lasts,
        records,
    )
}

pub fn after_take_back(
    shape: Shape,
    run: Run,
    marks: &[u8],
    depths: &mut [u32],
    lasts: &mut [u32],
    records: &[u32],
) -> Answer
    ensures { AfterBack (plan shape marks.now) (world depths.old lasts.old records.now run) result (world depths.new lasts.new records.now (run_after result run)) }
{
    take_back(shape, run, marks, depths, lasts, records)
}

// ---- before a run

pub fn after_fresh(
    shape: Shape,
    rules: Rules,
    marks: &[u8],
    lasts: &mut [u32],
    records: &[u32],
) -> Answer
    ensures { AfterFresh (plan shape marks.now) rules lasts.old records.now result lasts.new }
{
    fresh(shape, rules, marks, lasts, records)
}

pub fn after_check(
    shape: Shape,
    rules: Rules,
    run: Run,
    end: u64,
    marks: &[u8],
    beds: &[u32],
    roughness: &[u32],
    rates: &[u32],
    rain: &[u32],
    inflow: &[u32],
    depths: &[u32],
    lasts: &[u32],
    records: &[u32],
) -> u32
    ensures { TableSays (run_checks (plan shape marks.now) (given (ground rules beds.now roughness.now rates.now) rain.now inflow.now) end (world depths.now lasts.now records.now run)) result }
{
    check(
        shape,
        rules,
        run,
        end,
        marks,
        beds,
        roughness,
        rates,
        rain,
        inflow,
        depths,
        lasts,
        records.len(),
    )
}

pub fn after_check_step(
    shape: Shape,
    rules: Rules,
    run: Run,
    marks: &[u8],
    beds: &[u32],
    roughness: &[u32],
    rates: &[u32],
    rain: &[u32],
    inflow: &[u32],
    depths: &[u32],
    lasts: &[u32],
    records: &[u32],
) -> u32
    ensures { TableSays (step_checks (plan shape marks.now) (given (ground rules beds.now roughness.now rates.now) rain.now inflow.now) (ring_of (plan shape marks.now) (world depths.now lasts.now records.now run)) (seen_of (world depths.now lasts.now records.now run))) result }
{
    check_step(
        shape,
        rules,
        run,
        marks,
        beds,
        roughness,
        rates,
        rain,
        inflow,
        depths,
        lasts,
        records.len(),
    )
}

pub fn after_step_bounds(rules: Rules, clock: u64, end: u64) -> Bounds
    ensures { AfterBounds rules clock end result }
{
    step_bounds(rules, clock, end)
}

// ---- arrows and wet rows

pub fn after_arrow(
    shape: Shape,
    square_side: u64,
    run: Run,
    marks: &[u8],
    depths: &[u32],
    records: &[u32],
    row: usize,
    column: usize,
) -> Sight
    ensures { AfterArrow (plan shape marks.now) square_side (view depths.now records.now run) row column result }
{
    arrow(shape, square_side, run, marks, depths, records, row, column)
}

pub fn after_all_arrows(
    shape: Shape,
    square_side: u64,
    run: Run,
    marks: &[u8],
    depths: &[u32],
    records: &[u32],
    kinds: &mut [u8],
    east: &mut [f64],
    north: &mut [f64],
) -> u32
    ensures { AfterAllArrows (plan shape marks.now) square_side (view depths.now records.now run) (sights kinds.old east.old north.old) result (sights kinds.new east.new north.new) }
{
    all_arrows(
        shape,
        square_side,
        run,
        marks,
        depths,
        records,
        kinds,
        east,
        north,
    )
}

pub fn after_wet_rows(
    shape: Shape,
    marks: &[u8],
    depths: &[u32],
    wet_depth: u32,
    rows: &mut [u64],
) -> Wet
    ensures { AfterWet (plan shape marks.now) depths.now wet_depth rows.old result rows.new }
{
    wet_rows(shape, marks, depths, wet_depth, rows)
}

// ---- a sheet, and `meadow`

pub fn after_read(
    text: &[u8],
    marks: &mut [u8],
    beds: &mut [u32],
    roughness: &mut [u32],
    rates: &mut [u32],
    depths: &mut [u32],
    rain: &mut [u32],
    inflow: &mut [u32],
) -> Sheet
    ensures { AfterRead text.now (rooms marks.old beds.old roughness.old rates.old depths.old rain.old inflow.old) result (rooms marks.new beds.new roughness.new rates.new depths.new rain.new inflow.new) }
{
    read(text, marks, beds, roughness, rates, depths, rain, inflow)
}

pub fn after_meadow_of(text: &[u8], out: &mut [u8; OUT_ROOM]) -> usize
    ensures { AfterMeadow text.now out.old out.new result }
{
    meadow_of(text, out)
}
