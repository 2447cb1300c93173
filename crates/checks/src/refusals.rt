// Refusals 1 to 6 of the calls that are lent everything.
ghost use Rattle.std.specs.Prelude.{◌≡◌, ◌||◌, [], ◌∷◌, ◌<◌, length, get_or};
ghost use Rattle.reckon.specs.Tests.{every};
ghost use Rattle.reckon.specs.Tables.{rain_kind, inflow_kind, table_fine};
ghost use Rattle.grid.specs.Squares.{ShapeInRange, shape_fine, squares};
ghost use Rattle.grid.specs.Marks.{Marked, closed, inflow_squares_fine};
ghost use Rattle.rule.specs.Rules.{rules_fine};
ghost use Rattle.reckon.specs.Ranges.{side_fine};
ghost use Rattle.rule.specs.declared.rules.Rules as Declared;
ghost use Rattle.ledger.specs.Runs.{plan};
ghost use Rattle.trials.specs.Ring.{slots_in};
ghost use Rattle.ledger.specs.Record.{record_size};
ghost use Rattle.ledger.specs.Checks.{one_each};
ghost use Rattle.checks.specs.Given.{ground, given};
ghost use Rattle.checks.specs.Refusals.{Checks, ChecksStep, end_fine, grounds_fine, square_ground_fine};
ghost use Rattle.checks.specs.Inner.Rows.{RowsTried};

use grid::marks::{inflow_squares_fine, is_closed, marks_fine};
use grid::squares::{Shape, shape_fine, squares_of};
use ledger::lent::{one_each, waters_fine};
use ledger::record::record_size;
use ledger::runs::{Run, run_fine};
use reckon::ranges::{LAST_CLOCK, rate_fine, side_fine};
use reckon::tables::{inflow_fine, rain_fine};
use rule::rules::{Rules, ground_fine, rules_fine};

// Refusal 2 for the ground of one square.
fn ground_at_fine(
    marks: &[u8],
    beds: &[u32],
    roughness: &[u32],
    rates: &[u32],
    square: usize,
) -> bool
    requires { (square < length marks.now) × (square < length beds.now) × (square < length roughness.now) × (square < length rates.now) }
    ensures { result ≡ (closed marks.now square || square_ground_fine (get_or beds.now square 0) (get_or roughness.now square 0) (get_or rates.now square 0)) }
{
    if is_closed(marks, square) {
        return true;
    }
    if !ground_fine(beds[square], roughness[square]) {
        return false;
    }
    rate_fine(rates[square])
}

// Refusal 2: bed, roughness and soak rate of every square not closed are in range.
fn grounds_fine(shape: Shape, marks: &[u8], beds: &[u32], roughness: &[u32], rates: &[u32]) -> bool
    requires { (Marked shape marks.now) × (length beds.now ≡ squares shape) × (length roughness.now ≡ squares shape) × (length rates.now ≡ squares shape) }
    ensures { (rules : Declared.Rules) → result ≡ grounds_fine (plan shape marks.now) (ground rules beds.now roughness.now rates.now) }
{
    for square in 0..squares_of(shape) {
        if !ground_at_fine(marks, beds, roughness, rates, square) {
            return false;
        }
    }
    true
}

// Refusal 1: the shape and D are in range, and every slice has one number a square.
fn lent_fine(
    shape: Shape,
    rules: Rules,
    marks: &[u8],
    beds: &[u32],
    roughness: &[u32],
    rates: &[u32],
    depths: &[u32],
    lasts: &[u32],
) -> bool
    ensures { result ≡ every (shape_fine shape ∷ side_fine rules.square_side ∷ one_each (plan shape marks.now) marks.now ∷ one_each (plan shape marks.now) beds.now ∷ one_each (plan shape marks.now) roughness.now ∷ one_each (plan shape marks.now) rates.now ∷ one_each (plan shape marks.now) depths.now ∷ one_each (plan shape marks.now) lasts.now ∷ []) }
{
    if !shape_fine(shape) {
        return false;
    }
    if !side_fine(rules.square_side) {
        return false;
    }
    if !one_each(shape, marks.len()) {
        return false;
    }
    if !one_each(shape, beds.len()) {
        return false;
    }
    if !one_each(shape, roughness.len()) {
        return false;
    }
    if !one_each(shape, rates.len()) {
        return false;
    }
    if !one_each(shape, depths.len()) {
        return false;
    }
    one_each(shape, lasts.len())
}

// Refusal 4: both tables are in range, and every inflow row's square is on the grid and not closed.
fn tables_fine(shape: Shape, marks: &[u8], rain: &[u32], inflow: &[u32]) -> bool
    requires { Marked shape marks.now }
    ensures { result ≡ every (table_fine rain_kind rain.now ∷ table_fine inflow_kind inflow.now ∷ inflow_squares_fine shape marks.now inflow.now ∷ []) }
{
    if !rain_fine(rain) {
        return false;
    }
    if !inflow_fine(inflow) {
        return false;
    }
    inflow_squares_fine(shape, marks, inflow)
}

// Refusal 5 for the end of a run: in range, and a multiple of U.
fn end_fine(rules: Rules, end: u64) -> bool
    requires { 0 < rules.update }
    ensures { result ≡ end_fine rules end }
{
    if LAST_CLOCK < end {
        return false;
    }
    end % rules.update == 0
}

// Refusal 5 of a run to an end.
pub(crate) fn rules_and_end_fine(rules: Rules, end: u64) -> bool
    ensures { result ≡ every (rules_fine rules ∷ end_fine rules end ∷ []) }
{
    if !rules_fine(rules) {
        return false;
    }
    end_fine(rules, end)
}

// How many records a room of so many numbers holds.
pub(crate) fn slots_of(shape: Shape, numbers: usize) -> usize
    requires { ShapeInRange shape }
    ensures { result ≡ slots_in (record_size (plan shape [])) numbers }
{
    trials::slots_in(record_size(shape), numbers)
}

// The first number of 1 to 6 that applies, 0 for none, where `five` tells whether 5 does not. Of the record room only its size is looked at.
fn checked(
    shape: Shape,
    rules: Rules,
    run: Run,
    five: bool,
    marks: &[u8],
    beds: &[u32],
    roughness: &[u32],
    rates: &[u32],
    rain: &[u32],
    inflow: &[u32],
    depths: &[u32],
    lasts: &[u32],
    numbers: usize,
) -> u32
    ensures { RowsTried (plan shape marks.now) (given (ground rules beds.now roughness.now rates.now) rain.now inflow.now) five depths.now lasts.now numbers run result }
{
    if !lent_fine(shape, rules, marks, beds, roughness, rates, depths, lasts) {
        return 1;
    }
    if !marks_fine(shape, marks) {
        return 2;
    }
    if !grounds_fine(shape, marks, beds, roughness, rates) {
        return 2;
    }
    if !waters_fine(shape, marks, depths, lasts) {
        return 3;
    }
    if !tables_fine(shape, marks, rain, inflow) {
        return 4;
    }
    if !five {
        return 5;
    }
    if !run_fine(slots_of(shape, numbers), run) {
        return 6;
    }
    0
}

// The first number of 1 to 6 that applies to a step, 0 for none.
pub fn check_step(
    shape: Shape,
    rules: Rules,
    run: Run,
    marks: &[u8],
    beds: &[u32],
    roughness: &[u32],
    rates: &[u32],
    rain: &[u32],
    inflow: &[u32],
    depths: &[u32],
    lasts: &[u32],
    numbers: usize,
) -> u32
    ensures { ChecksStep (plan shape marks.now) (given (ground rules beds.now roughness.now rates.now) rain.now inflow.now) depths.now lasts.now numbers run result }
{
    checked(
        shape,
        rules,
        run,
        rules_fine(rules),
        marks,
        beds,
        roughness,
        rates,
        rain,
        inflow,
        depths,
        lasts,
        numbers,
    )
}

// The first number of 1 to 6 that applies to a run to an end, 0 for none.
pub fn check(
    shape: Shape,
    rules: Rules,
    run: Run,
    end: u64,
    marks: &[u8],
    beds: &[u32],
    roughness: &[u32],
    rates: &[u32],
    rain: &[u32],
    inflow: &[u32],
    depths: &[u32],
    lasts: &[u32],
    numbers: usize,
) -> u32
    ensures { Checks (plan shape marks.now) (given (ground rules beds.now roughness.now rates.now) rain.now inflow.now) end depths.now lasts.now numbers run result }
{
    checked(
        shape,
        rules,
        run,
        rules_and_end_fine(rules, end),
        marks,
        beds,
        roughness,
        rates,
        rain,
        inflow,
        depths,
        lasts,
        numbers,
    )
}
