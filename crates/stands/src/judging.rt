// Refusals 3, 4 and 6 of a state that was read.
ghost use Rattle.std.specs.Prelude.{◌≡◌, ◌||◌, not, false, ◌<◌, ◌≤◌, get_or, length};
ghost use Rattle.grid.specs.Squares.{ShapeInRange, squares};
ghost use Rattle.ledger.specs.Runs.{plan};
ghost use Rattle.hatches.specs.Log.{most_hatches};
ghost use Rattle.stands.specs.Laying.{checks_of, draws_fine, hatch_fine, hatches_fine, state_fine};

use crate::saved::{MOST_GIVEN, MOST_START, Saved};
use crate::squares::waters_read;
use grid::marks::is_closed;
use grid::squares::{Shape, square_at};
use hatches::log::{Hatches, Log, MOST_HATCHES};
use hatches::refusals::{standing_fine, table_fits};
use ledger::runs::run_fine;
use reckon::ranges::MOST_LITRES;

// 4 for a hatch: its square is on the grid and not closed, and its litres are in range.
fn hatch_fine(row: u32, column: u32, litres: u32, shape: Shape, marks: &[u8]) -> bool
    requires { (ShapeInRange shape) × (squares shape ≤ length marks.now) }
    ensures { result ≡ hatch_fine (plan shape marks.now) row column litres }
{
    let at_row = row as usize;
    let at_column = column as usize;
    if shape.rows <= at_row {
        return false;
    }
    if shape.columns <= at_column {
        return false;
    }
    if is_closed(marks, square_at(shape, at_row, at_column)) {
        return false;
    }
    litres as u64 <= MOST_LITRES
}

// The same of one of the hatches, where it is named.
fn place_fine(hatches: Hatches, litres: [u32; 9], hatch: usize, shape: Shape, marks: &[u8]) -> bool
    requires { (ShapeInRange shape) × (squares shape ≤ length marks.now) × (hatch < most_hatches) }
    ensures { result ≡ (not (get_or hatches.named hatch false) || hatch_fine (plan shape marks.now) (get_or hatches.rows hatch 0) (get_or hatches.columns hatch 0) (get_or litres hatch 0)) }
{
    let named = hatches.named;
    if !named[hatch] {
        return true;
    }
    let rows = hatches.rows;
    let columns = hatches.columns;
    hatch_fine(rows[hatch], columns[hatch], litres[hatch], shape, marks)
}

// The same of all hatches.
fn hatches_fine(hatches: Hatches, litres: [u32; 9], shape: Shape, marks: &[u8]) -> bool
    requires { (ShapeInRange shape) × (squares shape ≤ length marks.now) }
    ensures { result ≡ hatches_fine (plan shape marks.now) hatches litres }
{
    for hatch in 0..MOST_HATCHES {
        if !place_fine(hatches, litres, hatch, shape, marks) {
            return false;
        }
    }
    true
}

// 4: each hatch, and whether the table has room for their rows.
fn draws_fine(log: Log, shape: Shape, marks: &[u8], inflow: &[u32]) -> bool
    requires { (ShapeInRange shape) × (squares shape ≤ length marks.now) }
    ensures { result ≡ draws_fine (plan shape marks.now) inflow.now log }
{
    let hatches = log.hatches;
    let litres = log.litres;
    if !hatches_fine(hatches, litres, shape, marks) {
        return false;
    }
    table_fits(inflow.len(), hatches, 0)
}

// 6: the run, the steps standing, the start and what was given.
fn state_fine(saved: Saved, slots: usize) -> bool
    ensures { result ≡ state_fine slots saved }
{
    let log = saved.log;
    if !run_fine(slots, log.run) {
        return false;
    }
    if !standing_fine(log) {
        return false;
    }
    if MOST_START < saved.start {
        return false;
    }
    saved.given <= MOST_GIVEN
}

// The first of 3, 4 and 6 that applies, 0 for none: the squares' lines start at a position.
pub(crate) fn checked(
    text: &[u8],
    at: usize,
    shape: Shape,
    slots: usize,
    marks: &[u8],
    inflow: &[u32],
    saved: Saved,
) -> u32
    requires { (ShapeInRange shape) × (squares shape ≤ length marks.now) }
    ensures { result ≡ checks_of (plan shape marks.now) inflow.now slots text.now at saved }
{
    if !waters_read(text, at, shape, marks) {
        return 3;
    }
    if !draws_fine(saved.log, shape, marks, inflow) {
        return 4;
    }
    if !state_fine(saved, slots) {
        return 6;
    }
    0
}
