// A run to an end with a lent list of boards: numbers and slices in, numbers and slices out.
ghost use Rattle.std.specs.Prelude.{◌≡◌, [], ◌∷◌, length};
ghost use Rattle.reckon.specs.Tests.{pick};
ghost use Rattle.ledger.specs.Runs.{plan, world};
ghost use Rattle.checks.specs.Given.{ground, given};
ghost use Rattle.exports.specs.Numbers.{rules_from, run_numbers, run_size, run_value_from, shape_from, steps_size};
ghost use Rattle.display_exports.specs.Boards.{before_steps, ExportsBoards};
ghost use Rattle.display_exports.specs.Inner.Held.{TellsHeld};

use display::boards::{Board, Boards};
use display::lent::{held_of, put_back};
use display::watch::{BAD_BOARDS, run_boards};
use exports::answers::put_run;
use exports::inputs::{rules_from, run_from};
use exports::sizes::{NOT_ITS_SIZE, RULES_NUMBERS, RUN_NUMBERS, STEPS_NUMBERS};
use exports::steps::LAST_CHECK;
use flood::run::Ran;
use grid::squares::Shape;

// The number of a run with boards by value, and the boards after it.
#[derive(Clone, Copy)]
struct Boarded {
    number: u32,
    boards: Boards,
}

fn number_of(boarded: Boarded) -> u32
    ensures { result ≡ boarded.number }
{
    boarded.number
}

fn boards_of(boarded: Boarded) -> Boards
    ensures { result ≡ boarded.boards }
{
    boarded.boards
}

// Whether a number is a refusal before any step.
fn before_steps(number: u32) -> bool
    ensures { result ≡ before_steps number }
{
    if number == 0 {
        return false;
    }
    if number <= LAST_CHECK {
        return true;
    }
    number == BAD_BOARDS
}

// The number of a run; its run goes into the slice, and its steps unless it was refused before any.
fn tell_ran(ran: Ran, run: &mut [u64], steps: &mut [u64]) -> u32
    requires { (length run.old ≡ run_size) × (length steps.old ≡ steps_size) }
    ensures { (result ≡ ran.refused) × (run.new ≡ run_numbers ran.run) × (steps.new ≡ pick (before_steps ran.refused) steps.old (ran.steps ∷ [])) }
{
    let number = ran.refused;
    put_run(ran.run, run);
    if before_steps(number) {
        return number;
    }
    steps[0] = ran.steps;
    number
}

// A run to an end with boards by value, told in the slices.
fn run_told(
    held: Boards,
    rows: usize,
    columns: usize,
    rules: &[u64],
    end: u64,
    marks: &[u8],
    beds: &[u32],
    roughness: &[u32],
    rates: &[u32],
    rain: &[u32],
    inflow: &[u32],
    depths: &mut [u32],
    lasts: &mut [u32],
    records: &mut [u32],
    run: &mut [u64],
    steps: &mut [u64],
) -> Boarded
    ensures { TellsHeld (plan (shape_from rows columns) marks.now) (given (ground (rules_from rules.now) beds.now roughness.now rates.now) rain.now inflow.now) end (world depths.old lasts.old records.old (run_value_from run.old)) held rules.now run.old steps.old result depths.new lasts.new records.new run.new steps.new }
{
    if rules.len() != RULES_NUMBERS {
        return Boarded {
            number: NOT_ITS_SIZE,
            boards: held,
        };
    }
    if run.len() != RUN_NUMBERS {
        return Boarded {
            number: NOT_ITS_SIZE,
            boards: held,
        };
    }
    if steps.len() != STEPS_NUMBERS {
        return Boarded {
            number: NOT_ITS_SIZE,
            boards: held,
        };
    }
    let shape = Shape {
        rows: rows,
        columns: columns,
    };
    let shown = run_boards(
        held,
        shape,
        rules_from(rules),
        run_from(run),
        end,
        marks,
        beds,
        roughness,
        rates,
        rain,
        inflow,
        depths,
        lasts,
        records,
    );
    let after = shown.boards;
    let number = tell_ran(shown.ran, run, steps);
    Boarded {
        number: number,
        boards: after,
    }
}

// Steps by the wet walk to an end of the clock, and how many were made, with a list of boards refreshed at the start and after each step.
pub fn flood_run_to_boards(
    rows: usize,
    columns: usize,
    rules: &[u64],
    end: u64,
    marks: &[u8],
    beds: &[u32],
    roughness: &[u32],
    rates: &[u32],
    rain: &[u32],
    inflow: &[u32],
    depths: &mut [u32],
    lasts: &mut [u32],
    records: &mut [u32],
    run: &mut [u64],
    steps: &mut [u64],
    boards: &mut [Board],
) -> u32
    ensures { ExportsBoards (plan (shape_from rows columns) marks.now) (given (ground (rules_from rules.now) beds.now roughness.now rates.now) rain.now inflow.now) end (world depths.old lasts.old records.old (run_value_from run.old)) (length boards.old) boards.old rules.now run.old steps.old result depths.new lasts.new records.new run.new steps.new boards.new }
{
    let held = held_of(boards);
    let told = run_told(
        held, rows, columns, rules, end, marks, beds, roughness, rates, rain, inflow, depths,
        lasts, records, run, steps,
    );
    let after = boards_of(told);
    put_back(boards, after);
    number_of(told)
}
