// Each exported call, made as it is lent, with a contract in the letter's words: what specs/Exported.antt says that its caller has.
ghost use Rattle.ledger.specs.Runs.{plan, world};
ghost use Rattle.checks.specs.Given.{given, ground};
ghost use Rattle.sight.specs.Arrows.{view};
ghost use Rattle.sheet.specs.Sheet.{rooms};
ghost use Rattle.exports.specs.Numbers.{rules_from, run_value_from, shape_from};
ghost use Rattle.calls.specs.Exported.{AfterFloodArrow, AfterFloodBack, AfterFloodBounds, AfterFloodFresh, AfterFloodMeadow, AfterFloodRead, AfterFloodRun, AfterFloodStep, AfterFloodWet};

use exports::bounds::flood_step_bounds;
use exports::sheets::{flood_meadow, flood_read_sheet};
use exports::sights::{flood_arrow, flood_wet_rows};
use exports::steps::{
    flood_fresh, flood_run_to, flood_run_to_wet, flood_step, flood_step_wet, flood_take_back,
};

// ---- steps, runs and take-backs

pub fn after_flood_step(
    rows: usize,
    columns: usize,
    rules: &[u64],
    marks: &[u8],
    beds: &[u32],
    roughness: &[u32],
    rates: &[u32],
    rain: &[u32],
    inflow: &[u32],
    depths: &mut [u32],
    lasts: &mut [u32],
    records: &mut [u32],
    run: &mut [u64],
) -> u32
    ensures { AfterFloodStep (plan (shape_from rows columns) marks.now) (given (ground (rules_from rules.now) beds.now roughness.now rates.now) rain.now inflow.now) (world depths.old lasts.old records.old (run_value_from run.old)) rules.now run.old result (world depths.new lasts.new records.new (run_value_from run.new)) run.new }
{
    flood_step(
        rows, columns, rules, marks, beds, roughness, rates, rain, inflow, depths, lasts, records,
        run,
    )
}

pub fn after_flood_step_wet(
    rows: usize,
    columns: usize,
    rules: &[u64],
    marks: &[u8],
    beds: &[u32],
    roughness: &[u32],
    rates: &[u32],
    rain: &[u32],
    inflow: &[u32],
    depths: &mut [u32],
    lasts: &mut [u32],
    records: &mut [u32],
    run: &mut [u64],
) -> u32
    ensures { AfterFloodStep (plan (shape_from rows columns) marks.now) (given (ground (rules_from rules.now) beds.now roughness.now rates.now) rain.now inflow.now) (world depths.old lasts.old records.old (run_value_from run.old)) rules.now run.old result (world depths.new lasts.new records.new (run_value_from run.new)) run.new }
{
    flood_step_wet(
        rows, columns, rules, marks, beds, roughness, rates, rain, inflow, depths, lasts, records,
        run,
    )
}

pub fn after_flood_run_to(
    rows: usize,
    columns: usize,
    rules: &[u64],
    end: u64,
    marks: &[u8],
    beds: &[u32],
    roughness: &[u32],
    rates: &[u32],
    rain: &[u32],
    inflow: &[u32],
    depths: &mut [u32],
    lasts: &mut [u32],
    records: &mut [u32],
    run: &mut [u64],
    steps: &mut [u64],
) -> u32
    ensures { AfterFloodRun (plan (shape_from rows columns) marks.now) (given (ground (rules_from rules.now) beds.now roughness.now rates.now) rain.now inflow.now) end (world depths.old lasts.old records.old (run_value_from run.old)) rules.now run.old steps.old result (world depths.new lasts.new records.new (run_value_from run.new)) run.new steps.new }
{
    flood_run_to(
        rows, columns, rules, end, marks, beds, roughness, rates, rain, inflow, depths, lasts,
        records, run, steps,
    )
}

pub fn after_flood_run_to_wet(
    rows: usize,
    columns: usize,
    rules: &[u64],
    end: u64,
    marks: &[u8],
    beds: &[u32],
    roughness: &[u32],
    rates: &[u32],
    rain: &[u32],
    inflow: &[u32],
    depths: &mut [u32],
    lasts: &mut [u32],
    records: &mut [u32],
    run: &mut [u64],
    steps: &mut [u64],
) -> u32
    ensures { AfterFloodRun (plan (shape_from rows columns) marks.now) (given (ground (rules_from rules.now) beds.now roughness.now rates.now) rain.now inflow.now) end (world depths.old lasts.old records.old (run_value_from run.old)) rules.now run.old steps.old result (world depths.new lasts.new records.new (run_value_from run.new)) run.new steps.new }
{
    flood_run_to_wet(
        rows, columns, rules, end, marks, beds, roughness, rates, rain, inflow, depths, lasts,
        records, run, steps,
    )
}

pub fn after_flood_take_back(
    rows: usize,
    columns: usize,
    marks: &[u8],
    depths: &mut [u32],
    lasts: &mut [u32],
    records: &[u32],
    run: &mut [u64],
) -> u32
    ensures { AfterFloodBack (plan (shape_from rows columns) marks.now) (world depths.old lasts.old records.now (run_value_from run.old)) run.old result (world depths.new lasts.new records.now (run_value_from run.new)) run.new }
{
    flood_take_back(rows, columns, marks, depths, lasts, records, run)
}

// ---- before a run

pub fn after_flood_fresh(
    rows: usize,
    columns: usize,
    rules: &[u64],
    marks: &[u8],
    lasts: &mut [u32],
    records: &[u32],
    run: &mut [u64],
) -> u32
    ensures { AfterFloodFresh (plan (shape_from rows columns) marks.now) (rules_from rules.now) lasts.old records.now rules.now run.old result lasts.new run.new }
{
    flood_fresh(rows, columns, rules, marks, lasts, records, run)
}

pub fn after_flood_step_bounds(rules: &[u64], clock: u64, end: u64, bounds: &mut [u64]) -> u32
    ensures { AfterFloodBounds clock end rules.now bounds.old result bounds.new }
{
    flood_step_bounds(rules, clock, end, bounds)
}

// ---- arrows and wet rows

pub fn after_flood_arrow(
    rows: usize,
    columns: usize,
    square_side: u64,
    marks: &[u8],
    depths: &[u32],
    records: &[u32],
    run: &[u64],
    row: usize,
    column: usize,
    speeds: &mut [f64],
) -> u32
    ensures { AfterFloodArrow (plan (shape_from rows columns) marks.now) square_side (view depths.now records.now (run_value_from run.now)) row column run.now speeds.old result speeds.new }
{
    flood_arrow(
        rows,
        columns,
        square_side,
        marks,
        depths,
        records,
        run,
        row,
        column,
        speeds,
    )
}

pub fn after_flood_wet_rows(
    rows: usize,
    columns: usize,
    marks: &[u8],
    depths: &[u32],
    wet_depth: u32,
    wet: &mut [u64],
    count: &mut [u64],
) -> u32
    ensures { AfterFloodWet (plan (shape_from rows columns) marks.now) depths.now wet_depth wet.old count.old result wet.new count.new }
{
    flood_wet_rows(rows, columns, marks, depths, wet_depth, wet, count)
}

// ---- a sheet, and `meadow`

pub fn after_flood_read_sheet(
    text: &[u8],
    marks: &mut [u8],
    beds: &mut [u32],
    roughness: &mut [u32],
    rates: &mut [u32],
    depths: &mut [u32],
    rain: &mut [u32],
    inflow: &mut [u32],
    heading: &mut [u64],
    line: &mut [u64],
) -> u32
    ensures { AfterFloodRead text.now (rooms marks.old beds.old roughness.old rates.old depths.old rain.old inflow.old) heading.old line.old result (rooms marks.new beds.new roughness.new rates.new depths.new rain.new inflow.new) heading.new line.new }
{
    flood_read_sheet(
        text, marks, beds, roughness, rates, depths, rain, inflow, heading, line,
    )
}

pub fn after_flood_meadow(text: &[u8], out: &mut [u8]) -> usize
    ensures { AfterFloodMeadow text.now out.old result out.new }
{
    flood_meadow(text, out)
}
