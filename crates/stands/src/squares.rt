// The lines of the squares not closed, in order: looked through, judged, and stored into rooms.
ghost use Rattle.std.specs.Prelude.{◌≡◌, ◌<◌, ◌≤◌, length, set};
ghost use Rattle.reckon.specs.Tests.{pick};
ghost use Rattle.reckon.specs.Lists.{filled};
ghost use Rattle.grid.specs.Squares.{ShapeInRange, squares};
ghost use Rattle.grid.specs.Marks.{closed};
ghost use Rattle.ledger.specs.Runs.{plan};
ghost use Rattle.ledger.specs.Flows.{shut};
ghost use Rattle.stands.specs.Laying.{depth_from, last_from, square_line, square_or, waters_read};
ghost use Rattle.stands.specs.Inner.Passing.{SquaresPassed};

use grid::marks::is_closed;
use grid::squares::{Shape, squares_of};
use reckon::ranges::water_fine;
use text::reading::line_of;

// A square's line: its depth and last leaving, how many lines it has (a closed square none), and where the next one starts.
#[derive(Clone, Copy)]
pub(crate) struct SquareLine {
    pub(crate) depth: u32,
    pub(crate) last: u32,
    pub(crate) lines: usize,
    pub(crate) next: usize,
}

// How many squares were passed before the first whose line cannot be read, how many lines they have, and where the line after them starts.
#[derive(Clone, Copy)]
pub(crate) struct Scan {
    pub(crate) count: usize,
    pub(crate) lines: usize,
    pub(crate) next: usize,
}

// A square's line that was read, or one of zeros.
fn square_or(line: Option<SquareLine>) -> SquareLine
    ensures { result ≡ square_or line }
{
    line.unwrap_or(SquareLine {
        depth: 0,
        last: 0,
        lines: 0,
        next: 0,
    })
}

// `at` square depth last.
const SQUARE_FIELDS: usize = 3;

// The line of a square at a position.
fn square_line(text: &[u8], at: usize, marks: &[u8], square: usize) -> Option<SquareLine>
    requires { square < length marks.now }
    ensures { result ≡ square_line text.now at marks.now square }
{
    if is_closed(marks, square) {
        return Some(SquareLine {
            depth: 0,
            last: 0,
            lines: 0,
            next: at,
        });
    }
    let line = line_of(text, at, b"at", SQUARE_FIELDS)?;
    let values = line.values;
    if values[0] as usize != square {
        return None;
    }
    Some(SquareLine {
        depth: values[1],
        last: values[2],
        lines: 1,
        next: line.next,
    })
}

// The squares' lines passed, up to the first that cannot be read.
pub(crate) fn pass_squares(text: &[u8], at: usize, shape: Shape, marks: &[u8]) -> Scan
    requires { (ShapeInRange shape) × (squares shape ≤ length marks.now) }
    ensures { SquaresPassed text.now at marks.now (squares shape) result }
{
    let squares = squares_of(shape);
    let mut next = at;
    let mut lines: usize = 0;
    for square in 0..squares {
        let Some(line) = square_line(text, next, marks, square) else {
            return Scan {
                count: square,
                lines: lines,
                next: next,
            };
        };
        lines += line.lines;
        next = line.next;
    }
    Scan {
        count: squares,
        lines: lines,
        next: next,
    }
}

// Refusal 3: what the lines say of each square not closed is in range.
pub(crate) fn waters_read(text: &[u8], at: usize, shape: Shape, marks: &[u8]) -> bool
    requires { (ShapeInRange shape) × (squares shape ≤ length marks.now) }
    ensures { result ≡ waters_read text.now at (plan shape marks.now) }
{
    let squares = squares_of(shape);
    let mut next = at;
    for square in 0..squares {
        let line = square_or(square_line(text, next, marks, square));
        if !water_fine(line.depth, line.last) {
            return false;
        }
        next = line.next;
    }
    true
}

// A square's depth and last leaving into the rooms, nothing where it is closed.
fn put_water(marks: &[u8], line: SquareLine, square: usize, depths: &mut [u32], lasts: &mut [u32])
    requires { (square < length marks.now) × (square < length depths.old) × (square < length lasts.old) }
    ensures { (depths.new ≡ pick (closed marks.now square) depths.old (set depths.old square line.depth))
        × (lasts.new ≡ pick (closed marks.now square) lasts.old (set lasts.old square line.last)) }
{
    if is_closed(marks, square) {
        return;
    }
    depths[square] = line.depth;
    lasts[square] = line.last;
}

// What the lines say of each square not closed, into the rooms.
pub(crate) fn store_squares(
    text: &[u8],
    at: usize,
    shape: Shape,
    marks: &[u8],
    depths: &mut [u32],
    lasts: &mut [u32],
)
    requires { (ShapeInRange shape) × (squares shape ≤ length marks.now) × (squares shape ≤ length depths.old) × (squares shape ≤ length lasts.old) }
    ensures { (depths.new ≡ filled (squares shape) (shut (plan shape marks.now)) (depth_from text.now at marks.now) depths.old)
        × (lasts.new ≡ filled (squares shape) (shut (plan shape marks.now)) (last_from text.now at marks.now) lasts.old) }
{
    let squares = squares_of(shape);
    let mut next = at;
    for square in 0..squares {
        let line = square_or(square_line(text, next, marks, square));
        put_water(marks, line, square, depths, lasts);
        next = line.next;
    }
}
