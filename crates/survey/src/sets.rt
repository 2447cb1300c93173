// A set as it is read: its text judged, its grids compared with its note, and what they say put into rooms.
ghost use Rattle.std.specs.Prelude.{◌≡◌, false, [], ◌∷◌, ◌≤◌, length};
ghost use Rattle.reckon.specs.Lists.{filled};
ghost use Rattle.grid.specs.Squares.{ShapeInRange, squares};
ghost use Rattle.text.specs.Reading.{most_number};
ghost use Rattle.raster.specs.Raster.{entry_from, grid_bad, head_in, head_or, is_shut, next_of, value_of};
ghost use Rattle.raster.specs.declared.amounts.Scale.TheVariants.{Metres, Whole};
ghost use Rattle.survey.specs.Sets.{agrees, all_agree, all_short, first_of, five_files};
ghost use Rattle.survey.specs.Inner.Notes.{NoteIs, closed_agree, closed_same, looked_heading, mark_from, noted};

use crate::moving::MOST_FILE;
use crate::notes::{Note, mark_at};
use grid::squares::{Shape, squares_of};
use raster::amounts::Scale;
use raster::reading::{Entry, Head, entry_at, grid_bad, head_of};
use reckon::ranges::MOST_TABLE_ROWS;
use sheet::reading::Heading;
use text::lines::next_line;

// One row too many is enough to refuse a table.
pub(crate) const LOOKED_ROWS: usize = MOST_TABLE_ROWS + 1;

// No file is too long.
pub(crate) fn all_short(
    note: &[u8],
    bed: &[u8],
    depth: &[u8],
    roughness: &[u8],
    rate: &[u8],
) -> bool
    ensures { result ≡ all_short (five_files note.now bed.now depth.now roughness.now rate.now) }
{
    if MOST_FILE < note.len() {
        return false;
    }
    if MOST_FILE < bed.len() {
        return false;
    }
    if MOST_FILE < depth.len() {
        return false;
    }
    if MOST_FILE < roughness.len() {
        return false;
    }
    rate.len() <= MOST_FILE
}

// The line of the first file that cannot be read, 0 where all can; `note` is the note's.
pub(crate) fn set_bad(note: usize, bed: &[u8], depth: &[u8], roughness: &[u8], rate: &[u8]) -> usize
    ensures { result ≡ first_of (note ∷ grid_bad Metres bed.now ∷ grid_bad Metres depth.now ∷ grid_bad Whole roughness.now ∷ grid_bad Whole rate.now ∷ []) }
{
    if note != 0 {
        return note;
    }
    let first = grid_bad(bed, Scale::Metres);
    if first != 0 {
        return first;
    }
    let second = grid_bad(depth, Scale::Metres);
    if second != 0 {
        return second;
    }
    let third = grid_bad(roughness, Scale::Whole);
    if third != 0 {
        return third;
    }
    grid_bad(rate, Scale::Whole)
}

// A header that was read, or one of no squares, from where the reading stopped.
fn head_or(head: Result<Head, usize>) -> Head
    ensures { result ≡ head_or head }
{
    match head {
        Ok(head) => head,
        Err(at) => Head {
            shape: Shape {
                rows: 0,
                columns: 0,
            },
            side: 0,
            next: at,
        },
    }
}

// A square that was read is closed.
fn is_shut(entry: Option<Entry>) -> bool
    ensures { result ≡ is_shut entry }
{
    match entry {
        Some(entry) => entry.value.is_none(),
        None => false,
    }
}

// A square's number, 0 where it is closed.
fn value_of(entry: Option<Entry>) -> u32
    ensures { result ≡ value_of entry }
{
    match entry {
        Some(entry) => entry.value.unwrap_or(0),
        None => 0,
    }
}

// Where the square after the one at a position starts.
fn next_of(at: usize, entry: Option<Entry>) -> usize
    ensures { result ≡ next_of at entry }
{
    match entry {
        Some(entry) => entry.next,
        None => at,
    }
}

// A square is closed in a grid as it is in the note.
fn closed_same(closed: bool, mark: u8) -> bool
    ensures { result ≡ closed_same closed mark }
{
    if closed {
        return mark == 0;
    }
    mark != 0
}

// The closed squares of a grid are the note's, the first square of each being at a position.
fn closed_agree(
    note: &[u8],
    cells_at: usize,
    grid: &[u8],
    at: usize,
    shape: Shape,
    scale: Scale,
) -> bool
    requires { (cells_at ≤ length note.now) × (shape.rows ≤ most_number) × (shape.columns ≤ most_number) }
    ensures { result ≡ closed_agree note.now cells_at scale grid.now at shape }
{
    let columns = shape.columns;
    let squares = shape.rows * columns;
    let mut line = cells_at;
    let mut next = at;
    for square in 0..squares {
        let entry = entry_at(grid, next, scale, (square + 1) % columns == 0);
        if !closed_same(is_shut(entry), mark_at(note, line, columns, square)) {
            return false;
        }
        line = next_line(note, line);
        next = next_of(next, entry);
    }
    true
}

// A grid agrees with the note in shape, cellsize and closed squares.
fn grid_agrees(note: &[u8], read: Note, grid: &[u8], scale: Scale) -> bool
    requires { NoteIs note.now read }
    ensures { result ≡ agrees (noted note.now) scale grid.now }
{
    let head = head_or(head_of(grid));
    let found = head.shape;
    let heading = read.heading;
    let shape = heading.shape;
    let rules = heading.rules;
    if found.rows != shape.rows {
        return false;
    }
    if found.columns != shape.columns {
        return false;
    }
    if head.side != rules.square_side {
        return false;
    }
    closed_agree(note, read.cells_at, grid, head.next, shape, scale)
}

// All four grids agree with the note.
pub(crate) fn all_agree(
    note: &[u8],
    read: Note,
    bed: &[u8],
    depth: &[u8],
    roughness: &[u8],
    rate: &[u8],
) -> bool
    requires { NoteIs note.now read }
    ensures { result ≡ all_agree (five_files note.now bed.now depth.now roughness.now rate.now) }
{
    if !grid_agrees(note, read, bed, Scale::Metres) {
        return false;
    }
    if !grid_agrees(note, read, depth, Scale::Metres) {
        return false;
    }
    if !grid_agrees(note, read, roughness, Scale::Whole) {
        return false;
    }
    grid_agrees(note, read, rate, Scale::Whole)
}

// The marks of a note into a room, the first square's line being at a position.
pub(crate) fn fill_marks(note: &[u8], at: usize, shape: Shape, marks: &mut [u8])
    requires { (at ≤ length note.now) × (ShapeInRange shape) × (squares shape ≤ length marks.old) }
    ensures { marks.new ≡ filled (squares shape) (λ i. false) (mark_from note.now at shape.columns) marks.old }
{
    let columns = shape.columns;
    let squares = squares_of(shape);
    let mut line = at;
    for square in 0..squares {
        marks[square] = mark_at(note, line, columns, square);
        line = next_line(note, line);
    }
}

// The numbers of a grid into a room, 0 at closed squares.
pub(crate) fn fill_column(grid: &[u8], scale: Scale, shape: Shape, room: &mut [u32])
    requires { (ShapeInRange shape) × (squares shape ≤ length room.old) }
    ensures { room.new ≡ filled (squares shape) (λ i. false) (λ i. value_of (entry_from scale grid.now (head_in grid.now).next shape.columns i)) room.old }
{
    let columns = shape.columns;
    let squares = squares_of(shape);
    let head = head_or(head_of(grid));
    let mut next = head.next;
    for square in 0..squares {
        let entry = entry_at(grid, next, scale, (square + 1) % columns == 0);
        room[square] = value_of(entry);
        next = next_of(next, entry);
    }
}

// A heading with as many rows as are looked at.
pub(crate) fn looked_heading(heading: Heading) -> Heading
    ensures { result ≡ looked_heading heading }
{
    Heading {
        rain_rows: heading.rain_rows.min(LOOKED_ROWS),
        inflow_rows: heading.inflow_rows.min(LOOKED_ROWS),
        ..heading
    }
}
