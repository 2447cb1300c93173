// The lines of a sheet and of its note, put into a lent room by what rooms hold.
ghost use Rattle.std.specs.Prelude.{◌≡◌, [], ◌∷◌, ℕ, ◌+◌, ◌*◌, ◌<◌, ◌≤◌, length, get_or};
ghost use Rattle.reckon.specs.Lists.{joined, tabulate};
ghost use Rattle.reckon.specs.Tables.{inflow_kind, rain_kind};
ghost use Rattle.grid.specs.Squares.{ShapeInRange, squares};
ghost use Rattle.text.specs.Writing.{Wrote, fields_text, rest_text};
ghost use Rattle.sheet.specs.Lines.{letter_of, line_head};
ghost use Rattle.sheet.specs.Sheet.{cells_rooms, rooms};
ghost use Rattle.sheet.specs.Written.{cell_written, grid_written, row_written, run_written, sheet_written};
ghost use Rattle.survey.specs.Sets.{mark_line, most_file, note_text};
ghost use Rattle.survey.specs.Inner.Writing.{OneEach, Writable, only_cells, only_noted};

use grid::marks::is_closed;
use grid::squares::{Shape, squares_of};
use reckon::numbers::number;
use reckon::tables::{INFLOW_WIDTH, RAIN_WIDTH};
use sheet::reading::Heading;
use text::reading::{NEWLINE, TAB};
use text::writing::{put_byte, put_field, put_fields, put_line, put_word};

// The letter of a mark.
fn letter_of(mark: u8) -> u8
    requires { mark < 3 }
    ensures { result ≡ letter_of mark }
{
    if mark == 0 {
        return b'x';
    }
    if mark == 1 {
        return b'o';
    }
    b'e'
}

// What a square's line begins with: `cell`, row and column, and the letter of its mark.
fn put_line_head(out: &mut [u8], at: usize, row: usize, column: usize, mark: u8) -> usize
    requires { (mark < 3) × (at + length (line_head row column mark) ≤ length out.old) }
    ensures { Wrote (line_head row column mark) at out.old out.new result }
{
    let place = [row as u64, column as u64];
    let letter = [TAB, letter_of(mark)];
    let start = put_word(out, at, b"cell");
    let next = put_fields(out, start, &place);
    put_word(out, next, &letter)
}

// A square's line in a note, ended after its mark.
pub(crate) fn put_mark_line(
    out: &mut [u8],
    at: usize,
    columns: usize,
    square: usize,
    mark: u8,
) -> usize
    requires { (0 < columns) × (mark < 3) × (at + length (mark_line columns square mark) ≤ length out.old) }
    ensures { Wrote (mark_line columns square mark) at out.old out.new result }
{
    let end = put_line_head(out, at, square / columns, square % columns, mark);
    put_byte(out, end, NEWLINE)
}

// Those of all squares.
fn put_marks(out: &mut [u8], at: usize, shape: Shape, marks: &[u8]) -> usize
    requires shape_in_range { (ShapeInRange shape) × (length marks.now ≡ squares shape) × ((i : ℕ) → i < squares shape → get_or marks.now i 0 < 3) }
    requires i_in_bounds { at + length (joined (squares shape) (λ i. mark_line shape.columns i (get_or marks.now i 0))) ≤ length out.old }
    ensures { Wrote (joined (squares shape) (λ i. mark_line shape.columns i (get_or marks.now i 0))) at out.old out.new result }
{
    let mut next = at;
    for (square, mark) in marks.iter().enumerate() {
        next = put_mark_line(out, next, shape.columns, square, *mark);
    }
    next
}

// The four numbers of a square not closed, and the end of its line.
fn put_ground(
    out: &mut [u8],
    at: usize,
    square: usize,
    beds: &[u32],
    roughness: &[u32],
    rates: &[u32],
    depths: &[u32],
) -> usize
    requires square_in_bounds { (square < length beds.now) × (square < length roughness.now) × (square < length rates.now) × (square < length depths.now) }
    requires square_in_bounds_2 { at + length (rest_text (get_or beds.now square 0 ∷ get_or roughness.now square 0 ∷ get_or depths.now square 0 ∷ get_or rates.now square 0 ∷ [])) ≤ length out.old }
    ensures { Wrote (rest_text (get_or beds.now square 0 ∷ get_or roughness.now square 0 ∷ get_or depths.now square 0 ∷ get_or rates.now square 0 ∷ [])) at out.old out.new result }
{
    let values = [
        number(beds, square),
        number(roughness, square),
        number(depths, square),
        number(rates, square),
    ];
    let end = put_fields(out, at, &values);
    put_byte(out, end, NEWLINE)
}

// A square's line in a sheet.
fn put_cell(
    out: &mut [u8],
    at: usize,
    columns: usize,
    square: usize,
    marks: &[u8],
    beds: &[u32],
    roughness: &[u32],
    rates: &[u32],
    depths: &[u32],
) -> usize
    requires columns_nonzero { (0 < columns) × (square < length marks.now) × (square < length beds.now) × (square < length roughness.now) × (square < length rates.now) × (square < length depths.now) }
    requires square_bound { (get_or marks.now square 0 < 3) × (at + length (cell_written columns (only_cells (cells_rooms marks.now beds.now roughness.now rates.now depths.now)) square) ≤ length out.old) }
    ensures { Wrote (cell_written columns (only_cells (cells_rooms marks.now beds.now roughness.now rates.now depths.now)) square) at out.old out.new result }
{
    let end = put_line_head(out, at, square / columns, square % columns, marks[square]);
    if is_closed(marks, square) {
        return put_byte(out, end, NEWLINE);
    }
    put_ground(out, end, square, beds, roughness, rates, depths)
}

// Those of all squares.
fn put_cells(
    out: &mut [u8],
    at: usize,
    shape: Shape,
    marks: &[u8],
    beds: &[u32],
    roughness: &[u32],
    rates: &[u32],
    depths: &[u32],
) -> usize
    requires shape_in_range { (ShapeInRange shape) × ((i : ℕ) → i < squares shape → get_or marks.now i 0 < 3) × (OneEach (squares shape) (cells_rooms marks.now beds.now roughness.now rates.now depths.now)) }
    requires depths_in_bounds { at + length (joined (squares shape) (cell_written shape.columns (only_cells (cells_rooms marks.now beds.now roughness.now rates.now depths.now)))) ≤ length out.old }
    ensures { Wrote (joined (squares shape) (cell_written shape.columns (only_cells (cells_rooms marks.now beds.now roughness.now rates.now depths.now)))) at out.old out.new result }
{
    let squares = squares_of(shape);
    let columns = shape.columns;
    let mut next = at;
    for square in 0..squares {
        next = put_cell(
            out, next, columns, square, marks, beds, roughness, rates, depths,
        );
    }
    next
}

// Some numbers of a table, from a place in it on.
fn put_numbers(out: &mut [u8], at: usize, table: &[u32], first: usize, width: usize) -> usize
    requires width_in_bounds { first + width ≤ length table.now }
    requires k_in_bounds { at + length (fields_text (tabulate width (λ k. get_or table.now (first + k) 0))) ≤ length out.old }
    ensures { Wrote (fields_text (tabulate width (λ k. get_or table.now (first + k) 0))) at out.old out.new result }
{
    let mut next = at;
    for value in &table[first..first + width] {
        next = put_field(out, next, *value as u64);
    }
    next
}

// The line of a row of a table.
fn put_row(out: &mut [u8], at: usize, word: &[u8], width: usize, table: &[u32], row: usize) -> usize
    requires width_in_bounds { width * row + width ≤ length table.now }
    requires row_in_bounds { at + length (row_written word.now width table.now row) ≤ length out.old }
    ensures { Wrote (row_written word.now width table.now row) at out.old out.new result }
{
    let start = put_word(out, at, word);
    let end = put_numbers(out, start, table, width * row, width);
    put_byte(out, end, NEWLINE)
}

// Those of all rows.
fn put_table(
    out: &mut [u8],
    at: usize,
    word: &[u8],
    width: usize,
    table: &[u32],
    rows: usize,
) -> usize
    requires rows_in_bounds { width * rows ≤ length table.now }
    requires table_in_bounds { at + length (joined rows (row_written word.now width table.now)) ≤ length out.old }
    ensures { Wrote (joined rows (row_written word.now width table.now)) at out.old out.new result }
{
    let mut next = at;
    for row in 0..rows {
        next = put_row(out, next, word, width, table, row);
    }
    next
}

// Line 1.
fn put_grid_line(out: &mut [u8], at: usize, heading: Heading) -> usize
    requires { at + length (grid_written heading) ≤ length out.old }
    ensures { Wrote (grid_written heading) at out.old out.new result }
{
    let shape = heading.shape;
    let rules = heading.rules;
    let values = [shape.rows as u64, shape.columns as u64, rules.square_side];
    put_line(out, at, b"grid", &values)
}

// Line 2.
fn put_run_line(out: &mut [u8], at: usize, heading: Heading) -> usize
    requires { at + length (run_written heading) ≤ length out.old }
    ensures { Wrote (run_written heading) at out.old out.new result }
{
    let rules = heading.rules;
    let values = [
        rules.tolerance,
        rules.shortest,
        rules.longest,
        rules.update,
        heading.end,
        rules.edge,
        rules.edition,
    ];
    put_line(out, at, b"run", &values)
}

// A whole sheet at the start of a room.
pub(crate) fn put_sheet(
    out: &mut [u8],
    heading: Heading,
    marks: &[u8],
    beds: &[u32],
    roughness: &[u32],
    rates: &[u32],
    depths: &[u32],
    rain: &[u32],
    inflow: &[u32],
) -> usize
    requires writable { Writable heading (rooms marks.now beds.now roughness.now rates.now depths.now rain.now inflow.now) }
    requires most_file_in_bounds { most_file ≤ length out.old }
    ensures { Wrote (sheet_written heading (rooms marks.now beds.now roughness.now rates.now depths.now rain.now inflow.now)) 0 out.old out.new result }
{
    let a = put_grid_line(out, 0, heading);
    let b = put_run_line(out, a, heading);
    let c = put_cells(out, b, heading.shape, marks, beds, roughness, rates, depths);
    let d = put_table(out, c, b"rain", RAIN_WIDTH, rain, heading.rain_rows);
    put_table(out, d, b"inflow", INFLOW_WIDTH, inflow, heading.inflow_rows)
}

// Its note likewise.
pub(crate) fn put_note(
    out: &mut [u8],
    heading: Heading,
    marks: &[u8],
    rain: &[u32],
    inflow: &[u32],
) -> usize
    requires shape_in_range { (ShapeInRange heading.shape) × (length marks.now ≡ squares heading.shape) × ((i : ℕ) → i < squares heading.shape → get_or marks.now i 0 < 3) }
    requires rain_len { (length rain.now ≡ rain_kind.width * heading.rain_rows) × (length inflow.now ≡ inflow_kind.width * heading.inflow_rows) × (length (note_text heading (only_noted marks.now rain.now inflow.now)) ≤ length out.old) }
    ensures { Wrote (note_text heading (only_noted marks.now rain.now inflow.now)) 0 out.old out.new result }
{
    let a = put_grid_line(out, 0, heading);
    let b = put_run_line(out, a, heading);
    let c = put_marks(out, b, heading.shape, marks);
    let d = put_table(out, c, b"rain", RAIN_WIDTH, rain, heading.rain_rows);
    put_table(out, d, b"inflow", INFLOW_WIDTH, inflow, heading.inflow_rows)
}
