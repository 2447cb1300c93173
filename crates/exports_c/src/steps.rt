// A fresh run, a step, a run to an end, these two by either walk, and a take-back, under their plain names.
ghost use Rattle.ledger.specs.Runs.{plan, world};
ghost use Rattle.checks.specs.Given.{ground, given};
ghost use Rattle.exports.specs.Numbers.{rules_from, run_value_from, shape_from};
ghost use Rattle.exports.specs.Steps.{ExportsBack, ExportsFresh, ExportsRun, ExportsStep};

use exports::steps;

// A fresh run: the last leaving of squares not closed becomes 0, and the run is told.
#[unsafe(no_mangle)]
pub extern "C" fn flood_fresh(
    rows: usize,
    columns: usize,
    rules: &[u64],
    marks: &[u8],
    lasts: &mut [u32],
    records: &[u32],
    run: &mut [u64],
) -> u32
    ensures { ExportsFresh (plan (shape_from rows columns) marks.now) (rules_from rules.now) lasts.old records.now rules.now run.old result lasts.new run.new }
{
    steps::flood_fresh(rows, columns, rules, marks, lasts, records, run)
}

// One step: every square is worked.
#[unsafe(no_mangle)]
pub extern "C" fn flood_step(
    rows: usize,
    columns: usize,
    rules: &[u64],
    marks: &[u8],
    beds: &[u32],
    roughness: &[u32],
    rates: &[u32],
    rain: &[u32],
    inflow: &[u32],
    depths: &mut [u32],
    lasts: &mut [u32],
    records: &mut [u32],
    run: &mut [u64],
) -> u32
    ensures { ExportsStep (plan (shape_from rows columns) marks.now) (given (ground (rules_from rules.now) beds.now roughness.now rates.now) rain.now inflow.now) (world depths.old lasts.old records.old (run_value_from run.old)) rules.now run.old result depths.new lasts.new records.new run.new }
{
    steps::flood_step(
        rows, columns, rules, marks, beds, roughness, rates, rain, inflow, depths, lasts, records,
        run,
    )
}

// One step by the wet walk: only the sides of squares with water are worked.
#[unsafe(no_mangle)]
pub extern "C" fn flood_step_wet(
    rows: usize,
    columns: usize,
    rules: &[u64],
    marks: &[u8],
    beds: &[u32],
    roughness: &[u32],
    rates: &[u32],
    rain: &[u32],
    inflow: &[u32],
    depths: &mut [u32],
    lasts: &mut [u32],
    records: &mut [u32],
    run: &mut [u64],
) -> u32
    ensures { ExportsStep (plan (shape_from rows columns) marks.now) (given (ground (rules_from rules.now) beds.now roughness.now rates.now) rain.now inflow.now) (world depths.old lasts.old records.old (run_value_from run.old)) rules.now run.old result depths.new lasts.new records.new run.new }
{
    steps::flood_step_wet(
        rows, columns, rules, marks, beds, roughness, rates, rain, inflow, depths, lasts, records,
        run,
    )
}

// Steps to an end of the clock, and how many were made: every square is worked at each.
#[unsafe(no_mangle)]
pub extern "C" fn flood_run_to(
    rows: usize,
    columns: usize,
    rules: &[u64],
    end: u64,
    marks: &[u8],
    beds: &[u32],
    roughness: &[u32],
    rates: &[u32],
    rain: &[u32],
    inflow: &[u32],
    depths: &mut [u32],
    lasts: &mut [u32],
    records: &mut [u32],
    run: &mut [u64],
    steps: &mut [u64],
) -> u32
    ensures { ExportsRun (plan (shape_from rows columns) marks.now) (given (ground (rules_from rules.now) beds.now roughness.now rates.now) rain.now inflow.now) end (world depths.old lasts.old records.old (run_value_from run.old)) rules.now run.old steps.old result depths.new lasts.new records.new run.new steps.new }
{
    steps::flood_run_to(
        rows, columns, rules, end, marks, beds, roughness, rates, rain, inflow, depths, lasts,
        records, run, steps,
    )
}

// Steps by the wet walk to an end of the clock, and how many were made: only the sides of squares with water are worked at each.
#[unsafe(no_mangle)]
pub extern "C" fn flood_run_to_wet(
    rows: usize,
    columns: usize,
    rules: &[u64],
    end: u64,
    marks: &[u8],
    beds: &[u32],
    roughness: &[u32],
    rates: &[u32],
    rain: &[u32],
    inflow: &[u32],
    depths: &mut [u32],
    lasts: &mut [u32],
    records: &mut [u32],
    run: &mut [u64],
    steps: &mut [u64],
) -> u32
    ensures { ExportsRun (plan (shape_from rows columns) marks.now) (given (ground (rules_from rules.now) beds.now roughness.now rates.now) rain.now inflow.now) end (world depths.old lasts.old records.old (run_value_from run.old)) rules.now run.old steps.old result depths.new lasts.new records.new run.new steps.new }
{
    steps::flood_run_to_wet(
        rows, columns, rules, end, marks, beds, roughness, rates, rain, inflow, depths, lasts,
        records, run, steps,
    )
}

// The newest step taken back.
#[unsafe(no_mangle)]
pub extern "C" fn flood_take_back(
    rows: usize,
    columns: usize,
    marks: &[u8],
    depths: &mut [u32],
    lasts: &mut [u32],
    records: &[u32],
    run: &mut [u64],
) -> u32
    ensures { ExportsBack (plan (shape_from rows columns) marks.now) (world depths.old lasts.old records.now (run_value_from run.old)) run.old result depths.new lasts.new run.new }
{
    steps::flood_take_back(rows, columns, marks, depths, lasts, records, run)
}
