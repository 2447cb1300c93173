// The flow arrow of a square after a step: from the newest record and today's depths. Nothing is written.
ghost use Rattle.std.specs.Prelude.{◌≡◌, false, [], ◌∷◌, ◌<◌};
ghost use Rattle.reckon.specs.Tests.{every, refusal};
ghost use Rattle.grid.specs.Squares.{OnSquare, sides};
ghost use Rattle.grid.specs.Marks.{closed};
ghost use Rattle.ledger.specs.Runs.{plan};
ghost use Rattle.sight.specs.Arrows.{Sees, asked_fine, arrow_early_refusals, net_none, seen_by, view};
ghost use Rattle.sight.specs.Inner.Arrows.{SightLent, Sided, Timed};

use crate::refusals::shared_refusal;
use crate::speeds::{Arrow, Through, arrow_through};
use grid::marks::is_closed;
use grid::squares::{EAST, NORTH, SOUTH, Shape, WEST, beside_on, square_at, squares_of};
use ledger::lent::times_fine;
use ledger::record::{lasted, leaving, record_size, sent_to};
use ledger::runs::{Run, run_fine};
use reckon::numbers::number;
use reckon::ranges::MOST_SIDE;

#[derive(Clone, Copy)]
pub enum Sight {
    Closed,
    Dry,
    Still,
    Moving(Arrow),
    Refused(u32),
}

// Refusal 1: D is in range, and the asked square is on the grid.
fn asked_fine(shape: Shape, square_side: u64, row: usize, column: usize) -> bool
    ensures { result ≡ asked_fine shape square_side row column }
{
    if square_side < 1 {
        return false;
    }
    if MOST_SIDE < square_side {
        return false;
    }
    if shape.rows <= row {
        return false;
    }
    column < shape.columns
}

// The number of the first refusal before 11, 0 for none.
pub(crate) fn early_refusal(
    shape: Shape,
    square_side: u64,
    run: Run,
    marks: &[u8],
    depths: &[u32],
    records: &[u32],
    row: usize,
    column: usize,
) -> u32
    ensures { result ≡ refusal (arrow_early_refusals (plan shape marks.now) square_side (view depths.now records.now run) row column) }
{
    let asked = asked_fine(shape, square_side, row, column);
    let shared = shared_refusal(shape, marks, depths, asked);
    if shared != 0 {
        return shared;
    }
    if !run_fine(trials::slots_in(record_size(shape), records.len()), run) {
        return 6;
    }
    if run.kept == 0 {
        return 10;
    }
    0
}

// What went through a side of a square that is not closed. Towards a closed square no water went, and no depth is read.
fn through_side(
    shape: Shape,
    marks: &[u8],
    depths: &[u32],
    rec: &[u32],
    square: usize,
    column: usize,
    side: usize,
) -> Through
    requires sight_lent { SightLent (plan shape marks.now) depths.now rec.now }
    requires on_square { (OnSquare shape square column) × (closed marks.now square ≡ false) }
    requires side_lt_sides { side < sides }
    ensures { Sided (plan shape marks.now) depths.now rec.now square side result }
{
    let own = number(depths, square);
    let at = beside_on(shape, square, column, side);
    if squares_of(shape) <= at {
        return Through {
            out: leaving(rec, square, side),
            back: 0,
            deep: own + own,
        };
    }
    if is_closed(marks, at) {
        return Through {
            out: 0,
            back: 0,
            deep: own + own,
        };
    }
    Through {
        out: leaving(rec, square, side),
        back: sent_to(shape, marks, rec, square, column, side),
        deep: own + number(depths, at),
    }
}

// Whether as much came back through a side as left.
fn is_still(side: Through) -> bool
    ensures { result ≡ net_none side }
{
    side.out == side.back
}

// Whether that is so of all four sides.
fn are_still(north: Through, east: Through, south: Through, west: Through) -> bool
    ensures { result ≡ every (net_none north ∷ net_none east ∷ net_none south ∷ net_none west ∷ []) }
{
    if !is_still(north) {
        return false;
    }
    if !is_still(east) {
        return false;
    }
    if !is_still(south) {
        return false;
    }
    is_still(west)
}

// What is seen of a square by a record.
pub(crate) fn seen(
    shape: Shape,
    square_side: u64,
    marks: &[u8],
    depths: &[u32],
    rec: &[u32],
    square: usize,
    column: usize,
) -> Sight
    requires sight_lent { SightLent (plan shape marks.now) depths.now rec.now }
    requires timed { (Timed square_side rec.now) × (OnSquare shape square column) }
    ensures { result ≡ seen_by 0 (plan shape marks.now) square_side depths.now rec.now square }
{
    if is_closed(marks, square) {
        return Sight::Closed;
    }
    if number(depths, square) == 0 {
        return Sight::Dry;
    }
    let north = through_side(shape, marks, depths, rec, square, column, NORTH);
    let east = through_side(shape, marks, depths, rec, square, column, EAST);
    let south = through_side(shape, marks, depths, rec, square, column, SOUTH);
    let west = through_side(shape, marks, depths, rec, square, column, WEST);
    if are_still(north, east, south, west) {
        return Sight::Still;
    }
    Sight::Moving(arrow_through(square_side, lasted(rec), north, east, south, west))
}

// The flow arrow of the square in a row and a column, after the newest step kept.
pub fn arrow(
    shape: Shape,
    square_side: u64,
    run: Run,
    marks: &[u8],
    depths: &[u32],
    records: &[u32],
    row: usize,
    column: usize,
) -> Sight
    ensures { Sees (plan shape marks.now) square_side (view depths.now records.now run) row column result }
{
    let refused = early_refusal(shape, square_side, run, marks, depths, records, row, column);
    if refused != 0 {
        return Sight::Refused(refused);
    }
    let size = record_size(shape);
    let at = trials::slot_start(size, run.newest);
    let end = at + size;
    let rec = &records[at..end];
    if !times_fine(rec) {
        return Sight::Refused(11);
    }
    seen(
        shape,
        square_side,
        marks,
        depths,
        rec,
        square_at(shape, row, column),
        column,
    )
}
