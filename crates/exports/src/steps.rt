// A fresh run, a step, a run to an end, these two by either walk, and a take-back.
ghost use Rattle.std.specs.Prelude.{◌≡◌, [], ◌∷◌, length};
ghost use Rattle.ledger.specs.Runs.{plan, world};
ghost use Rattle.checks.specs.Given.{ground, given};
ghost use Rattle.exports.specs.Numbers.{rules_from, run_numbers, run_size, run_value_from, shape_from, steps_size};
ghost use Rattle.exports.specs.Refusals.{unless_checks};
ghost use Rattle.exports.specs.Steps.{answer_number, ExportsBack, ExportsFresh, ExportsRun, ExportsStep};
ghost use Rattle.exports.specs.Inner.Slices.{answer_run};

use crate::answers::put_run;
use crate::inputs::{rules_from, run_from, shape_from};
use crate::sizes::{NOT_ITS_SIZE, RULES_NUMBERS, RUN_NUMBERS, STEPS_NUMBERS};
use checks::fresh::fresh;
use flood::run::{Ran, run_to};
use flood::step::step;
use grid::walks::Walk;
use ledger::runs::Answer;
use ledger::take_back::take_back;

// The last of the numbers that are tried before any step.
pub const LAST_CHECK: u32 = 6;

// An answer's number; its run, where there is one, goes into the slice.
fn tell_answer(answer: Answer, run: &mut [u64]) -> u32
    requires { length run.old ≡ run_size }
    ensures { (result ≡ answer_number answer) × (run.new ≡ answer_run answer run.old) }
{
    match answer {
        Answer::Refused(number) => number,
        Answer::Done(after) => {
            put_run(after, run);
            0
        }
    }
}

// The number of a run to an end; its run goes into the slice, and its steps unless its checks refused it.
fn tell_ran(ran: Ran, run: &mut [u64], steps: &mut [u64]) -> u32
    requires { (length run.old ≡ run_size) × (length steps.old ≡ steps_size) }
    ensures { (result ≡ ran.refused) × (run.new ≡ run_numbers ran.run) × (steps.new ≡ unless_checks ran.refused (ran.steps ∷ []) steps.old) }
{
    let number = ran.refused;
    put_run(ran.run, run);
    if number == 0 {
        steps[0] = ran.steps;
        return number;
    }
    if LAST_CHECK < number {
        steps[0] = ran.steps;
    }
    number
}

// A fresh run: the last leaving of squares not closed becomes 0, and the run is told.
pub fn flood_fresh(
    rows: usize,
    columns: usize,
    rules: &[u64],
    marks: &[u8],
    lasts: &mut [u32],
    records: &[u32],
    run: &mut [u64],
) -> u32
    ensures { ExportsFresh (plan (shape_from rows columns) marks.now) (rules_from rules.now) lasts.old records.now rules.now run.old result lasts.new run.new }
{
    if rules.len() != RULES_NUMBERS {
        return NOT_ITS_SIZE;
    }
    if run.len() != RUN_NUMBERS {
        return NOT_ITS_SIZE;
    }
    let answer = fresh(
        shape_from(rows, columns),
        rules_from(rules),
        marks,
        lasts,
        records,
    );
    tell_answer(answer, run)
}

// One step by either walk.
fn step_told(
    walk: Walk,
    rows: usize,
    columns: usize,
    rules: &[u64],
    marks: &[u8],
    beds: &[u32],
    roughness: &[u32],
    rates: &[u32],
    rain: &[u32],
    inflow: &[u32],
    depths: &mut [u32],
    lasts: &mut [u32],
    records: &mut [u32],
    run: &mut [u64],
) -> u32
    ensures { ExportsStep (plan (shape_from rows columns) marks.now) (given (ground (rules_from rules.now) beds.now roughness.now rates.now) rain.now inflow.now) (world depths.old lasts.old records.old (run_value_from run.old)) rules.now run.old result depths.new lasts.new records.new run.new }
{
    if rules.len() != RULES_NUMBERS {
        return NOT_ITS_SIZE;
    }
    if run.len() != RUN_NUMBERS {
        return NOT_ITS_SIZE;
    }
    let answer = step(
        walk,
        shape_from(rows, columns),
        rules_from(rules),
        run_from(run),
        marks,
        beds,
        roughness,
        rates,
        rain,
        inflow,
        depths,
        lasts,
        records,
    );
    tell_answer(answer, run)
}

// One step: every square is worked.
pub fn flood_step(
    rows: usize,
    columns: usize,
    rules: &[u64],
    marks: &[u8],
    beds: &[u32],
    roughness: &[u32],
    rates: &[u32],
    rain: &[u32],
    inflow: &[u32],
    depths: &mut [u32],
    lasts: &mut [u32],
    records: &mut [u32],
    run: &mut [u64],
) -> u32
    ensures { ExportsStep (plan (shape_from rows columns) marks.now) (given (ground (rules_from rules.now) beds.now roughness.now rates.now) rain.now inflow.now) (world depths.old lasts.old records.old (run_value_from run.old)) rules.now run.old result depths.new lasts.new records.new run.new }
{
    step_told(
        Walk::All,
        rows,
        columns,
        rules,
        marks,
        beds,
        roughness,
        rates,
        rain,
        inflow,
        depths,
        lasts,
        records,
        run,
    )
}

// One step by the wet walk: only the sides of squares with water are worked.
pub fn flood_step_wet(
    rows: usize,
    columns: usize,
    rules: &[u64],
    marks: &[u8],
    beds: &[u32],
    roughness: &[u32],
    rates: &[u32],
    rain: &[u32],
    inflow: &[u32],
    depths: &mut [u32],
    lasts: &mut [u32],
    records: &mut [u32],
    run: &mut [u64],
) -> u32
    ensures { ExportsStep (plan (shape_from rows columns) marks.now) (given (ground (rules_from rules.now) beds.now roughness.now rates.now) rain.now inflow.now) (world depths.old lasts.old records.old (run_value_from run.old)) rules.now run.old result depths.new lasts.new records.new run.new }
{
    step_told(
        Walk::Wet,
        rows,
        columns,
        rules,
        marks,
        beds,
        roughness,
        rates,
        rain,
        inflow,
        depths,
        lasts,
        records,
        run,
    )
}

// Steps by either walk to an end of the clock, and how many were made.
fn run_told(
    walk: Walk,
    rows: usize,
    columns: usize,
    rules: &[u64],
    end: u64,
    marks: &[u8],
    beds: &[u32],
    roughness: &[u32],
    rates: &[u32],
    rain: &[u32],
    inflow: &[u32],
    depths: &mut [u32],
    lasts: &mut [u32],
    records: &mut [u32],
    run: &mut [u64],
    steps: &mut [u64],
) -> u32
    ensures { ExportsRun (plan (shape_from rows columns) marks.now) (given (ground (rules_from rules.now) beds.now roughness.now rates.now) rain.now inflow.now) end (world depths.old lasts.old records.old (run_value_from run.old)) rules.now run.old steps.old result depths.new lasts.new records.new run.new steps.new }
{
    if rules.len() != RULES_NUMBERS {
        return NOT_ITS_SIZE;
    }
    if run.len() != RUN_NUMBERS {
        return NOT_ITS_SIZE;
    }
    if steps.len() != STEPS_NUMBERS {
        return NOT_ITS_SIZE;
    }
    let ran = run_to(
        walk,
        shape_from(rows, columns),
        rules_from(rules),
        run_from(run),
        end,
        marks,
        beds,
        roughness,
        rates,
        rain,
        inflow,
        depths,
        lasts,
        records,
    );
    tell_ran(ran, run, steps)
}

// Steps to an end of the clock, and how many were made: every square is worked at each.
pub fn flood_run_to(
    rows: usize,
    columns: usize,
    rules: &[u64],
    end: u64,
    marks: &[u8],
    beds: &[u32],
    roughness: &[u32],
    rates: &[u32],
    rain: &[u32],
    inflow: &[u32],
    depths: &mut [u32],
    lasts: &mut [u32],
    records: &mut [u32],
    run: &mut [u64],
    steps: &mut [u64],
) -> u32
    ensures { ExportsRun (plan (shape_from rows columns) marks.now) (given (ground (rules_from rules.now) beds.now roughness.now rates.now) rain.now inflow.now) end (world depths.old lasts.old records.old (run_value_from run.old)) rules.now run.old steps.old result depths.new lasts.new records.new run.new steps.new }
{
    run_told(
        Walk::All,
        rows,
        columns,
        rules,
        end,
        marks,
        beds,
        roughness,
        rates,
        rain,
        inflow,
        depths,
        lasts,
        records,
        run,
        steps,
    )
}

// Steps by the wet walk to an end of the clock, and how many were made: only the sides of squares with water are worked at each.
pub fn flood_run_to_wet(
    rows: usize,
    columns: usize,
    rules: &[u64],
    end: u64,
    marks: &[u8],
    beds: &[u32],
    roughness: &[u32],
    rates: &[u32],
    rain: &[u32],
    inflow: &[u32],
    depths: &mut [u32],
    lasts: &mut [u32],
    records: &mut [u32],
    run: &mut [u64],
    steps: &mut [u64],
) -> u32
    ensures { ExportsRun (plan (shape_from rows columns) marks.now) (given (ground (rules_from rules.now) beds.now roughness.now rates.now) rain.now inflow.now) end (world depths.old lasts.old records.old (run_value_from run.old)) rules.now run.old steps.old result depths.new lasts.new records.new run.new steps.new }
{
    run_told(
        Walk::Wet,
        rows,
        columns,
        rules,
        end,
        marks,
        beds,
        roughness,
        rates,
        rain,
        inflow,
        depths,
        lasts,
        records,
        run,
        steps,
    )
}

// The newest step taken back.
pub fn flood_take_back(
    rows: usize,
    columns: usize,
    marks: &[u8],
    depths: &mut [u32],
    lasts: &mut [u32],
    records: &[u32],
    run: &mut [u64],
) -> u32
    ensures { ExportsBack (plan (shape_from rows columns) marks.now) (world depths.old lasts.old records.now (run_value_from run.old)) run.old result depths.new lasts.new run.new }
{
    if run.len() != RUN_NUMBERS {
        return NOT_ITS_SIZE;
    }
    let answer = take_back(
        shape_from(rows, columns),
        run_from(run),
        marks,
        depths,
        lasts,
        records,
    );
    tell_answer(answer, run)
}
