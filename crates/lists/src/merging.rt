// What is counted of each square, with one accepted sheet more.
ghost use Rattle.std.specs.Prelude.{◌≡◌, ◌<◌, ◌≤◌, length};
ghost use Rattle.reckon.specs.Tests.{pick};
ghost use Rattle.grid.specs.Squares.{ShapeInRange, squares};
ghost use Rattle.ledger.specs.Runs.{plan};
ghost use Rattle.lists.specs.Tally.{count_with, gives};
ghost use Rattle.lists.specs.Inner.Judged.{Merges, MergesSquare};

use crate::names::MOST_SHEETS;
use grid::marks::is_closed;
use grid::squares::{Shape, squares_of};

// The sheet: whether one was accepted before it, the depth that counts, and its place in the list.
#[derive(Clone, Copy)]
pub(crate) struct Merging {
    pub(crate) begun: bool,
    pub(crate) wet: u32,
    pub(crate) place: u8,
}

// A square's count before the sheet: what a room holds before the first one does not matter.
fn count_before(merging: Merging, count: u8) -> u8
    ensures { result ≡ pick merging.begun count 0 }
{
    if merging.begun {
        return count;
    }
    0
}

// A square's count with the sheet, whose peak in it is given.
fn count_with(merging: Merging, peak: u32, count: u8) -> u8
    ensures { result ≡ count_with merging.wet peak (pick merging.begun count 0) }
{
    let before = count_before(merging, count);
    if peak < merging.wet {
        return before;
    }
    if MOST_SHEETS <= before as usize {
        return before;
    }
    before + 1
}

// Whether the sheet gives a square's deepest value: it is the first, or deeper than any before it.
fn is_given(merging: Merging, deepest: u32, peak: u32) -> bool
    ensures { result ≡ gives merging.begun deepest peak }
{
    if !merging.begun {
        return true;
    }
    deepest < peak
}

// One square with the sheet, unless it is closed.
fn merge_square(
    merging: Merging,
    square: usize,
    marks: &[u8],
    peaks: &[u32],
    counts: &mut [u8],
    deepest: &mut [u32],
    places: &mut [u8],
)
    requires square_in_bounds { (square < length marks.now) × (square < length peaks.now) }
    requires square_in_bounds_2 { (square < length counts.old) × (square < length deepest.old) × (square < length places.old) }
    ensures { MergesSquare merging square marks.now peaks.now counts.old deepest.old places.old counts.new deepest.new places.new }
{
    if is_closed(marks, square) {
        return;
    }
    let peak = peaks[square];
    counts[square] = count_with(merging, peak, counts[square]);
    if !is_given(merging, deepest[square], peak) {
        return;
    }
    deepest[square] = peak;
    places[square] = merging.place;
}

// Every square not closed with the sheet.
pub(crate) fn merge(
    merging: Merging,
    shape: Shape,
    marks: &[u8],
    peaks: &[u32],
    counts: &mut [u8],
    deepest: &mut [u32],
    places: &mut [u8],
)
    requires shape_in_range { (ShapeInRange shape) × (squares shape ≤ length marks.now) × (squares shape ≤ length peaks.now) }
    requires shape_in_bounds { (squares shape ≤ length counts.old) × (squares shape ≤ length deepest.old) × (squares shape ≤ length places.old) }
    ensures { Merges (plan shape marks.now) merging.begun merging.wet merging.place peaks.now counts.old deepest.old places.old counts.new deepest.new places.new }
{
    for square in 0..squares_of(shape) {
        merge_square(merging, square, marks, peaks, counts, deepest, places);
    }
}
