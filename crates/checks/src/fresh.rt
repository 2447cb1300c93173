// A fresh run.
ghost use Rattle.std.specs.Prelude.{◌≡◌, [], ◌∷◌, ◌<◌, length, set};
ghost use Rattle.reckon.specs.Tests.{every, pick};
ghost use Rattle.reckon.specs.Lists.{filled};
ghost use Rattle.grid.specs.Squares.{shape_fine, squares};
ghost use Rattle.grid.specs.Marks.{Marked, closed};
ghost use Rattle.reckon.specs.Ranges.{side_fine};
ghost use Rattle.ledger.specs.Runs.{plan};
ghost use Rattle.ledger.specs.Checks.{one_each};
ghost use Rattle.checks.specs.Fresh.{Freshens, fresh_number, FreshRunMade};

use crate::refusals::slots_of;
use grid::marks::{is_closed, marks_fine};
use grid::squares::{Shape, shape_fine, squares_of};
use ledger::lent::one_each;
use ledger::runs::{Answer, Run};
use reckon::ranges::side_fine;
use rule::rules::{Rules, rules_fine};

// Refusal 1: the shape and D are in range, and marks and last leaving have one number a square.
fn fresh_sizes_fine(shape: Shape, rules: Rules, marks: &[u8], lasts: &[u32]) -> bool
    ensures { result ≡ every (shape_fine shape ∷ side_fine rules.square_side ∷ one_each (plan shape marks.now) marks.now ∷ one_each (plan shape marks.now) lasts.now ∷ []) }
{
    if !shape_fine(shape) {
        return false;
    }
    if !side_fine(rules.square_side) {
        return false;
    }
    if !one_each(shape, marks.len()) {
        return false;
    }
    one_each(shape, lasts.len())
}

// The number of the first refusal, 0 for none.
fn fresh_number(shape: Shape, rules: Rules, marks: &[u8], lasts: &[u32], records: &[u32]) -> u32
    ensures { result ≡ fresh_number (plan shape marks.now) rules lasts.now records.now }
{
    if !fresh_sizes_fine(shape, rules, marks, lasts) {
        return 1;
    }
    if !marks_fine(shape, marks) {
        return 2;
    }
    if !rules_fine(rules) {
        return 5;
    }
    if slots_of(shape, records.len()) == 0 {
        return 6;
    }
    0
}

// Writes 0 to the last leaving of a square that is not closed.
fn clear_last(marks: &[u8], square: usize, lasts: &mut [u32])
    requires { (square < length marks.now) × (square < length lasts.old) }
    ensures { lasts.new ≡ pick (closed marks.now square) lasts.old (set lasts.old square 0) }
{
    if is_closed(marks, square) {
        return;
    }
    lasts[square] = 0;
}

// Writes 0 to the last leaving of every square that is not closed.
fn clear_lasts(shape: Shape, marks: &[u8], lasts: &mut [u32])
    requires { (Marked shape marks.now) × (length lasts.old ≡ squares shape) }
    ensures { lasts.new ≡ filled (squares shape) (closed marks.now) (λ i. 0) lasts.old }
{
    for square in 0..squares_of(shape) {
        clear_last(marks, square, lasts);
    }
}

// The run value that a fresh run starts with, in a record room with so many slots.
pub fn fresh_run(rules: Rules, slots: usize) -> Run
    requires { 0 < slots }
    ensures { FreshRunMade rules slots result }
{
    Run {
        clock: 0,
        length: rules.longest,
        outflow: 0,
        kept: 0,
        newest: slots - 1,
        soaked: 0,
    }
}

// Starts a fresh run: the last leaving of squares not closed becomes 0, and the answer is the run.
pub fn fresh(shape: Shape, rules: Rules, marks: &[u8], lasts: &mut [u32], records: &[u32]) -> Answer
    ensures { Freshens (plan shape marks.now) rules lasts.old records.now result lasts.new }
{
    let number = fresh_number(shape, rules, marks, lasts, records);
    if number != 0 {
        return Answer::Refused(number);
    }
    clear_lasts(shape, marks, lasts);
    Answer::Done(fresh_run(rules, slots_of(shape, records.len())))
}
