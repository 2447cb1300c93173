// A run to an end: the checks once, then steps while the clock is below the end.
ghost use Rattle.std.specs.Prelude.{◌≡◌, ◌<◌, ◌≤◌, List, ℕ, length, ⊤};
ghost use Rattle.reckon.specs.Ranges.{last_clock};
ghost use Rattle.grid.specs.Squares.{ShapeInRange, squares};
ghost use Rattle.ledger.specs.Runs.{Plan, plan, world};
ghost use Rattle.checks.specs.Given.{given, ground};
ghost use Rattle.adding.specs.Inner.Added.{rows_apart};
ghost use Rattle.flood.specs.Step.{Passes};
ghost use Rattle.flood.specs.Run.{RunsTo};
ghost use Rattle.flood.specs.Inner.Run.{RunsKept};

use crate::step::step_on;
use adding::added::rows_apart;
use adding::way::Way;
use checks::refusals::check;
use grid::squares::{MOST_ALONG, MOST_SQUARES, Shape, squares_of};
use grid::walks::Walk;
use ledger::runs::Run;
use rule::rules::Rules;

// The refusal's number, 0 for none, the steps made, and the run that they leave.
#[derive(Clone, Copy)]
pub struct Ran {
    pub refused: u32,
    pub steps: u64,
    pub run: Run,
}

// What is kept of a run besides its state, and changed by each step.
pub trait Keeper {
    // By a plan and a clock: it can take in what the next step does.
    ghost fits: { Plan → ℕ → Self → Type 0 };

    // By a plan, the depths after a step, and the clocks before and after it: what the step makes of it.
    ghost keeps: { Plan → List ℕ → ℕ → ℕ → Self → Self → Type 0 };

    fn keep(&mut self, shape: Shape, marks: &[u8], depths: &[u32], before: u64, clock: u64)
        requires lies { (ShapeInRange shape) × (length marks.now ≡ squares shape) × (length depths.now ≡ squares shape) }
        requires fits { (fits (plan shape marks.now) before self.old) × (before < clock) × (clock ≤ last_clock) }
        ensures keeps { keeps (plan shape marks.now) depths.now before clock self.old self.new }
        ensures fits { fits (plan shape marks.now) clock self.new };
}

// The plain run keeps nothing.
#[derive(Drop)]
struct Nothing;

impl Keeper for Nothing {
    ghost fits = { λ p clock kept. ⊤ };

    ghost keeps = { λ p depths before clock kept after. ⊤ };

    fn keep(&mut self, shape: Shape, marks: &[u8], depths: &[u32], before: u64, clock: u64) {}
}

// Steps while the clock is below the end, up to a step that is refused, all in the same working rooms; each that is made is kept.
pub fn run_kept<K: Keeper>(
    kept: &mut K,
    way: Way,
    run: Run,
    end: u64,
    marks: &[u8],
    beds: &[u32],
    roughness: &[u32],
    rates: &[u32],
    rain: &[u32],
    inflow: &[u32],
    depths: &mut [u32],
    lasts: &mut [u32],
    records: &mut [u32],
) -> Ran
    requires passes { Passes (plan way.shape marks.now) (given (ground way.rules beds.now roughness.now rates.now) rain.now inflow.now) (world depths.old lasts.old records.old run) }
    requires apart_value { (way.apart ≡ rows_apart inflow.now) × (end ≤ last_clock) }
    requires kept_fits { K.fits (plan way.shape marks.now) run.clock kept.old }
    ensures { RunsKept K.keeps (plan way.shape marks.now) (given (ground way.rules beds.now roughness.now rates.now) rain.now inflow.now) end (world depths.old lasts.old records.old run) kept.old result depths.new lasts.new records.new kept.new }
{
    let squares = squares_of(way.shape);
    let rows = way.shape.rows;
    let mut left = [0u32; MOST_SQUARES];
    let mut worked = [0u64; MOST_ALONG];
    let mut senders = [0u64; MOST_ALONG];
    let mut room = [0u32; MOST_SQUARES];
    let mut at = run;
    let mut steps: u64 = 0;
    while at.clock < end {
        let made = step_on(
            way,
            at,
            marks,
            beds,
            roughness,
            rates,
            rain,
            inflow,
            depths,
            lasts,
            records,
            &mut left[..squares],
            &mut worked[..rows],
            &mut senders[..rows],
            &mut room[..squares],
        );
        let refused = made.refused;
        let after = made.run;
        if refused != 0 {
            return Ran {
                refused: refused,
                steps: steps,
                run: after,
            };
        }
        kept.keep(way.shape, marks, depths, at.clock, after.clock);
        at = after;
        steps += 1;
    }
    Ran {
        refused: 0,
        steps: steps,
        run: at,
    }
}

// A run to an end by either walk, or a refusal.
pub fn run_to(
    walk: Walk,
    shape: Shape,
    rules: Rules,
    run: Run,
    end: u64,
    marks: &[u8],
    beds: &[u32],
    roughness: &[u32],
    rates: &[u32],
    rain: &[u32],
    inflow: &[u32],
    depths: &mut [u32],
    lasts: &mut [u32],
    records: &mut [u32],
) -> Ran
    ensures { RunsTo (plan shape marks.now) (given (ground rules beds.now roughness.now rates.now) rain.now inflow.now) end (world depths.old lasts.old records.old run) result depths.new lasts.new records.new }
{
    let number = check(
        shape,
        rules,
        run,
        end,
        marks,
        beds,
        roughness,
        rates,
        rain,
        inflow,
        depths,
        lasts,
        records.len(),
    );
    if number != 0 {
        return Ran {
            refused: number,
            steps: 0,
            run: run,
        };
    }
    let way = Way {
        walk: walk,
        shape: shape,
        rules: rules,
        apart: rows_apart(inflow),
    };
    run_kept(
        &mut Nothing,
        way,
        run,
        end,
        marks,
        beds,
        roughness,
        rates,
        rain,
        inflow,
        depths,
        lasts,
        records,
    )
}
