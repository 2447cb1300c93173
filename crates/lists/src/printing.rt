// What is printed of a list at its end, put into a lent room.
ghost use Rattle.std.specs.Prelude.{◌≡◌, true, ◌∷◌, ◌+◌, ◌<◌, ◌≤◌, get_or, length};
ghost use Rattle.grid.specs.Squares.{ShapeInRange, squares};
ghost use Rattle.ledger.specs.Runs.{plan};
ghost use Rattle.text.specs.Writing.{Wrote};
ghost use Rattle.lists.specs.Drowned.{numbers_text, refused_line, refused_lines, refused_many};
ghost use Rattle.programs.specs.Program.{most_printed};
ghost use Rattle.lists.specs.Right.{RoomsLong};
ghost use Rattle.lists.specs.Tally.{PutsDrowned, rooms, sheets_text, square_text, squares_text, tally_fine};

use crate::names::MOST_SHEETS;
use crate::tally::Tally;
use answer::printing::put_refused;
use grid::marks::is_closed;
use grid::squares::{Shape, shape_fine, squares_of};
use programs::limits::{OUT_ROOM, PROGRAM_SQUARES};
use reckon::numbers::number;
use text::reading::NEWLINE;
use text::writing::{put_byte, put_fields, put_number};

// A number and fields after it, as a line.
fn put_numbers(out: &mut [u8], at: usize, head: u64, values: &[u64]) -> usize
    requires { at + length (numbers_text (head ∷ values.now)) ≤ length out.old }
    ensures { Wrote (numbers_text (head ∷ values.now)) at out.old out.new result }
{
    let first = put_number(out, at, head);
    let second = put_fields(out, first, values);
    put_byte(out, second, NEWLINE)
}

// The number at a place of a list of bytes, widened.
fn byte(list: &[u8], at: usize) -> u64
    requires { at < length list.now }
    ensures { result ≡ get_or list.now at 0 }
{
    list[at] as u64
}

// The line of a square, none where it is closed.
fn put_square(
    out: &mut [u8],
    at: usize,
    shape: Shape,
    square: usize,
    marks: &[u8],
    counts: &[u8],
    deepest: &[u32],
    places: &[u8],
) -> usize
    requires shape_in_range { (ShapeInRange shape) × (square < length marks.now) × (square < length counts.now) × (square < length deepest.now) × (square < length places.now) }
    requires square_in_bounds { at + length (square_text (plan shape marks.now) counts.now deepest.now places.now square) ≤ length out.old }
    ensures { Wrote (square_text (plan shape marks.now) counts.now deepest.now places.now square) at out.old out.new result }
{
    if is_closed(marks, square) {
        return at;
    }
    let columns = shape.columns;
    let values = [
        (square % columns) as u64,
        byte(counts, square),
        number(deepest, square),
        byte(places, square),
    ];
    put_numbers(out, at, (square / columns) as u64, &values)
}

// The lines of all squares, at the start of out.
fn put_squares(
    out: &mut [u8],
    shape: Shape,
    marks: &[u8],
    counts: &[u8],
    deepest: &[u32],
    places: &[u8],
) -> usize
    requires shape_in_range { (ShapeInRange shape) × (squares shape ≤ length marks.now) × (squares shape ≤ length counts.now) × (squares shape ≤ length deepest.now) × (squares shape ≤ length places.now) }
    requires places_in_bounds { 0 + length (squares_text (plan shape marks.now) counts.now deepest.now places.now) ≤ length out.old }
    ensures { Wrote (squares_text (plan shape marks.now) counts.now deepest.now places.now) 0 out.old out.new result }
{
    let squares = squares_of(shape);
    let mut next: usize = 0;
    for square in 0..squares {
        next = put_square(out, next, shape, square, marks, counts, deepest, places);
    }
    next
}

// How many numbers are not 0.
fn count_refused(numbers: &[u32]) -> usize
    ensures { result ≡ refused_many numbers.now }
{
    numbers.iter().filter(|number| **number != 0).count()
}

// The line of a place, none where its sheet was accepted.
fn put_place(out: &mut [u8], at: usize, place: u64, number: u64) -> usize
    requires { at + length (refused_line place number) ≤ length out.old }
    ensures { Wrote (refused_line place number) at out.old out.new result }
{
    if number == 0 {
        return at;
    }
    let values = [number];
    put_numbers(out, at, place, &values)
}

// The lines of the refused ones.
fn put_places(out: &mut [u8], at: usize, numbers: &[u32]) -> usize
    requires { at + length (refused_lines 1 numbers.now) ≤ length out.old }
    ensures { Wrote (refused_lines 1 numbers.now) at out.old out.new result }
{
    let mut next = at;
    for (place, number) in numbers.iter().enumerate() {
        next = put_place(out, next, place as u64 + 1, *number as u64);
    }
    next
}

// The counts of sheets run and refused, and the refused ones.
fn put_sheets(out: &mut [u8], at: usize, numbers: &[u32]) -> usize
    requires { at + length (sheets_text numbers.now) ≤ length out.old }
    ensures { Wrote (sheets_text numbers.now) at out.old out.new result }
{
    let refused = count_refused(numbers);
    let values = [refused as u64];
    let next = put_numbers(out, at, (numbers.len() - refused) as u64, &values);
    put_places(out, next, numbers)
}

// Whether the rooms can hold what a tally tells.
fn tally_fine(tally: Tally) -> bool
    ensures { result ≡ tally_fine tally }
{
    if MOST_SHEETS < tally.taken {
        return false;
    }
    if !tally.begun {
        return true;
    }
    if !shape_fine(tally.shape) {
        return false;
    }
    squares_of(tally.shape) <= PROGRAM_SQUARES
}

// What is printed of a tally that the rooms can hold.
fn put_tally(
    out: &mut [u8],
    tally: Tally,
    marks: &[u8],
    counts: &[u8],
    deepest: &[u32],
    places: &[u8],
    numbers: &[u32],
) -> usize
    requires { (tally_fine tally ≡ true) × (RoomsLong (rooms marks.now counts.now deepest.now places.now numbers.now)) × (most_printed ≤ length out.old) }
    ensures { PutsDrowned tally (rooms marks.now counts.now deepest.now places.now numbers.now) out.old out.new result }
{
    let taken = tally.taken;
    if !tally.begun {
        return put_sheets(out, 0, &numbers[..taken]);
    }
    let next = put_squares(out, tally.shape, marks, counts, deepest, places);
    put_sheets(out, next, &numbers[..taken])
}

// What is printed at the end of a list, at the start of out; the answer is its length.
pub fn put_drowned(
    tally: Tally,
    marks: &[u8; PROGRAM_SQUARES],
    counts: &[u8; PROGRAM_SQUARES],
    deepest: &[u32; PROGRAM_SQUARES],
    places: &[u8; PROGRAM_SQUARES],
    numbers: &[u32; MOST_SHEETS],
    out: &mut [u8; OUT_ROOM],
) -> usize
    ensures { PutsDrowned tally (rooms marks.now counts.now deepest.now places.now numbers.now) out.old out.new result }
{
    if !tally_fine(tally) {
        return put_refused(out, 0, 1, 0);
    }
    put_tally(out, tally, marks, counts, deepest, places, numbers)
}
