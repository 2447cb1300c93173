// Unknown beds filled in rounds.
ghost use Rattle.std.specs.Prelude.{◌≡◌, ◌<◌, ◌≤◌, min, eqb, length, get_or, set};
ghost use Rattle.reckon.specs.Tests.{pick};
ghost use Rattle.reckon.specs.Lists.{filled};
ghost use Rattle.grid.specs.Squares.{OnSquare, ShapeInRange, sides, squares};
ghost use Rattle.holes.specs.Rounds.{BedsSeen, bed_after, bed_beside, lowest_beside, round_of};
ghost use Rattle.holes.specs.Inner.Steps.{RoundsMade};

use grid::marks::is_closed;
use grid::squares::{EAST, NORTH, SOUTH, Shape, WEST, beside_on, next_column, squares_of};

// Stands for a bed that is not known: above every bed.
pub(crate) const NO_BED: u32 = 1_000_000_001;

// The bed on a side of a square, NO_BED where there is no square or a closed one.
fn bed_beside(
    shape: Shape,
    marks: &[u8],
    beds: &[u32],
    square: usize,
    column: usize,
    side: usize,
) -> u32
    requires { (OnSquare shape square column) × (side < sides) × (squares shape ≡ length marks.now) × (squares shape ≡ length beds.now) }
    ensures { result ≡ bed_beside shape marks.now beds.now square side }
{
    let at = beside_on(shape, square, column, side);
    if squares_of(shape) <= at {
        return NO_BED;
    }
    if is_closed(marks, at) {
        return NO_BED;
    }
    beds[at]
}

// The lowest bed beside a square, NO_BED where none is known.
fn lowest_beside(shape: Shape, marks: &[u8], beds: &[u32], square: usize, column: usize) -> u32
    requires { (OnSquare shape square column) × (squares shape ≡ length marks.now) × (squares shape ≡ length beds.now) }
    ensures { result ≡ lowest_beside shape marks.now beds.now square }
{
    let north = bed_beside(shape, marks, beds, square, column, NORTH);
    let east = bed_beside(shape, marks, beds, square, column, EAST);
    let south = bed_beside(shape, marks, beds, square, column, SOUTH);
    let west = bed_beside(shape, marks, beds, square, column, WEST);
    north.min(east).min(south.min(west))
}

// The bed of a square after a round, by the beds before it.
fn bed_after(shape: Shape, marks: &[u8], before: &[u32], square: usize, column: usize) -> u32
    requires { (OnSquare shape square column) × (squares shape ≡ length marks.now) × (squares shape ≡ length before.now) }
    ensures { result ≡ bed_after shape marks.now before.now square }
{
    let bed = before[square];
    if bed == NO_BED {
        return lowest_beside(shape, marks, before, square, column);
    }
    bed
}

// A round: all squares by the beds before it.
fn one_round(shape: Shape, marks: &[u8], before: &[u32], beds: &mut [u32])
    requires { (ShapeInRange shape) × (squares shape ≡ length marks.now) × (squares shape ≡ length before.now) × (squares shape ≡ length beds.old) }
    ensures { beds.new ≡ round_of shape marks.now before.now }
{
    let mut column: usize = 0;
    for (square, bed) in beds.iter_mut().enumerate() {
        *bed = bed_after(shape, marks, before, square, column);
        column = next_column(shape, column);
    }
}

// The number of a round for a square that it has filled.
fn note_square(before: &[u32], beds: &[u32], turns: &mut [u32], turn: u32, square: usize)
    requires { (square < length before.now) × (square < length beds.now) × (square < length turns.old) }
    ensures { turns.new ≡ pick (eqb (get_or beds.now square 0) (get_or before.now square 0)) turns.old (set turns.old square turn) }
{
    if beds[square] == before[square] {
        return;
    }
    turns[square] = turn;
}

// The same of all squares.
fn note_round(before: &[u32], beds: &[u32], turns: &mut [u32], turn: u32)
    requires { (length before.now ≡ length beds.now) × (length before.now ≤ length turns.old) }
    ensures { turns.new ≡ filled (length before.now) (λ i. eqb (get_or beds.now i 0) (get_or before.now i 0)) (λ i. turn) turns.old }
{
    for square in 0..before.len() {
        note_square(before, beds, turns, turn, square);
    }
}

// Rounds until one fills nothing: beds become those after them, and turns has the round of each square that was filled. `before` is room to
// work in.
pub(crate) fn fill_rounds(
    shape: Shape,
    marks: &[u8],
    beds: &mut [u32],
    turns: &mut [u32],
    before: &mut [u32],
)
    requires shape_in_range { (ShapeInRange shape) × (squares shape ≡ length marks.now) × (squares shape ≤ length turns.old) × (squares shape ≡ length before.old) }
    requires beds_seen { BedsSeen shape marks.now beds.old }
    ensures { RoundsMade shape marks.now beds.old beds.new turns.old turns.new }
{
    let squares = squares_of(shape);
    for turn in 1..squares as u32 + 1 {
        before.copy_from_slice(beds);
        one_round(shape, marks, before, beds);
        if *beds == *before {
            return;
        }
        note_round(before, beds, turns, turn);
    }
}
