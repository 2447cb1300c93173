// The arrows of a grid as text: a line for each square that moves, its speeds as the decimal of their bits.
ghost use Rattle.std.specs.Prelude.{◌≡◌, ◌+◌, ◌<◌, ◌≤◌, length};
ghost use Rattle.grid.specs.Squares.{ShapeInRange, squares};
ghost use Rattle.sight.specs.AllArrows.{sights};
ghost use Rattle.text.specs.Writing.{Wrote};
ghost use Rattle.frames.specs.Arrows.{PutArrows, arrow_text, arrows_text, bits_of};

use grid::squares::{Shape, squares_of};
use sight::all_arrows::MOVING;
use text::writing::put_line;

// A speed's bits as a number; what is no number has none to print.
fn bits_of(speed: f64) -> u64
    ensures { result ≡ bits_of speed }
{
    if speed != speed {
        return 0;
    }
    f64::to_bits(speed)
}

// The line of a square, none where it does not move.
fn put_arrow(
    out: &mut [u8],
    at: usize,
    shape: Shape,
    kinds: &[u8],
    east: &[f64],
    north: &[f64],
    square: usize,
) -> usize
    requires shape_in_range { (ShapeInRange shape) × (square < length kinds.now) × (square < length east.now) × (square < length north.now) }
    requires square_in_bounds { at + length (arrow_text shape (sights kinds.now east.now north.now) square) ≤ length out.old }
    ensures { Wrote (arrow_text shape (sights kinds.now east.now north.now) square) at out.old out.new result }
{
    if kinds[square] != MOVING {
        return at;
    }
    let columns = shape.columns;
    let values = [
        (square / columns) as u64,
        (square % columns) as u64,
        bits_of(east[square]),
        bits_of(north[square]),
    ];
    put_line(out, at, b"arrow", &values)
}

// The lines of all squares that move.
pub fn put_arrows(
    out: &mut [u8],
    at: usize,
    shape: Shape,
    kinds: &[u8],
    east: &[f64],
    north: &[f64],
) -> usize
    requires shape_in_range { (ShapeInRange shape) × (squares shape ≤ length kinds.now) × (squares shape ≤ length east.now) × (squares shape ≤ length north.now) }
    requires north_in_bounds { at + length (arrows_text shape (sights kinds.now east.now north.now)) ≤ length out.old }
    ensures { PutArrows shape (sights kinds.now east.now north.now) at out.old out.new result }
{
    let squares = squares_of(shape);
    let mut next = at;
    for square in 0..squares {
        next = put_arrow(out, next, shape, kinds, east, north, square);
    }
    next
}
