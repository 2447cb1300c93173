// The squares that a step reaches: those that it has worked, and those beside one that sent. Only they get a new depth, which must be in
// range; then it is written, and the new last leaving of those that were worked.
ghost use Rattle.std.specs.Prelude.{◌≡◌, ◌+◌, ◌<◌, true, false, length, slice_index, slice_set};
ghost use Rattle.reckon.specs.Tests.{all_below, pick};
ghost use Rattle.grid.specs.Squares.{ShapeInRange, squares};
ghost use Rattle.grid.specs.Marks.{closed};
ghost use Rattle.grid.specs.Inner.Rows.{InRow};
ghost use Rattle.ledger.specs.Runs.{plan};
ghost use Rattle.ledger.specs.Flows.{shut};
ghost use Rattle.settling.specs.Inner.Settle.{NoneBeyond, SameBeyond, WhereClear, Written, fits_at, reached_row, skips_by, skips_in};

use grid::marks::is_closed;
use grid::squares::Shape;
use grid::walks::{beside_set, lowest_set, within_row, without_lowest};
use reckon::ranges::MOST_DEPTH;

// The columns of a row that are reached.
fn reached(worked: &[u64], senders: &[u64], row: usize) -> u64
    requires { (row < length worked.now) × (row < length senders.now) }
    ensures { result ≡ reached_row worked.now senders.now row }
{
    worked[row] | beside_set(senders, row)
}

// ---- whether the new depths are in range

// Whether a square's new depth is in range. What the room has for a closed square is no depth.
fn fits(marks: &[u8], room: &[u32], square: usize) -> bool
    requires { (square < length marks.now) × (square < length room.now) }
    ensures { result ≡ fits_at marks.now room.now square }
{
    if room[square] <= MOST_DEPTH {
        return true;
    }
    is_closed(marks, square)
}

// Whether those of a row fit too, by the columns that are reached.
fn row_fits(shape: Shape, marks: &[u8], first: usize, reached: u64, room: &[u32]) -> bool
    requires shape_in_range { (ShapeInRange shape) × (InRow shape first) × (length marks.now ≡ squares shape) × (length room.now ≡ squares shape) }
    requires where_clear { (WhereClear shape first reached (λ i. closed marks.now i ≡ false → slice_index room.now i ≡ 0)) × (all_below first (fits_at marks.now room.now) ≡ true) }
    ensures { result ≡ all_below (first + shape.columns) (fits_at marks.now room.now) }
{
    let columns = shape.columns;
    let mut rest = within_row(reached, columns);
    while rest != 0 {
        let column = lowest_set(rest);
        if !fits(marks, room, first + column) {
            return false;
        }
        rest = without_lowest(rest);
    }
    true
}

// Whether all of them fit.
pub(crate) fn all_fit(
    shape: Shape,
    marks: &[u8],
    worked: &[u64],
    senders: &[u64],
    room: &[u32],
) -> bool
    requires shape_in_range { (ShapeInRange shape) × (length marks.now ≡ squares shape) × (length room.now ≡ squares shape) }
    requires worked_len { (length worked.now ≡ shape.rows) × (length senders.now ≡ shape.rows) × (NoneBeyond (plan shape marks.now) worked.now senders.now room.now) }
    ensures { result ≡ all_below (squares shape) (fits_at marks.now room.now) }
{
    let rows = shape.rows;
    let columns = shape.columns;
    let mut first = 0;
    for row in 0..rows {
        let columns_reached = reached(worked, senders, row);
        if !row_fits(shape, marks, first, columns_reached, room) {
            return false;
        }
        first += columns;
    }
    true
}

// ---- the water written

// Writes a number at a square, unless it is closed.
fn write_one(marks: &[u8], from: &[u32], square: usize, list: &mut [u32])
    requires { (square < length marks.now) × (square < length from.now) × (square < length list.old) }
    ensures { list.new ≡ pick (closed marks.now square) list.old (slice_set list.old square (slice_index from.now square)) }
{
    if is_closed(marks, square) {
        return;
    }
    list[square] = from[square];
}

// The same of a row, by the columns that a mask has.
fn write_row(shape: Shape, marks: &[u8], from: &[u32], first: usize, mask: u64, list: &mut [u32])
    requires { (ShapeInRange shape) × (InRow shape first) × (length marks.now ≡ squares shape) × (length from.now ≡ squares shape) × (length list.old ≡ squares shape) }
    ensures { Written (skips_in marks.now first mask) (λ i. slice_index from.now i) first (first + shape.columns) list.old list.new }
{
    let columns = shape.columns;
    let mut rest = within_row(mask, columns);
    while rest != 0 {
        let column = lowest_set(rest);
        write_one(marks, from, first + column, list);
        rest = without_lowest(rest);
    }
}

// The old number where a square is closed, else the new one.
fn chosen(closed: bool, old: u32, new: u32) -> u32
    ensures { result ≡ pick closed old new }
{
    if closed {
        return old;
    }
    new
}

// The same as `write_one` with a store at a closed square too, of what stands there: so a row is written many squares at a time.
fn cover_one(marks: &[u8], from: &[u32], square: usize, list: &mut [u32])
    requires { (square < length marks.now) × (square < length from.now) × (square < length list.old) }
    ensures { list.new ≡ pick (closed marks.now square) list.old (slice_set list.old square (slice_index from.now square)) }
{
    let old = list[square];
    let new = from[square];
    list[square] = chosen(is_closed(marks, square), old, new);
}

// Covers all columns of a row, if any is reached: the others have their numbers already.
fn cover_row(shape: Shape, marks: &[u8], from: &[u32], first: usize, reached: u64, list: &mut [u32])
    requires shape_in_range { (ShapeInRange shape) × (InRow shape first) × (length marks.now ≡ squares shape) × (length from.now ≡ squares shape) × (length list.old ≡ squares shape) }
    requires where_clear { WhereClear shape first reached (λ i. closed marks.now i ≡ false → slice_index list.old i ≡ slice_index from.now i) }
    ensures { Written (closed marks.now) (λ i. slice_index from.now i) first (first + shape.columns) list.old list.new }
{
    if reached == 0 {
        return;
    }
    let columns = shape.columns;
    for column in 0..columns {
        cover_one(marks, from, first + column, list);
    }
}

// Writes what left the squares that were worked as their last leaving, and the new depths of the rows that are reached, row by row.
pub(crate) fn write_water(
    shape: Shape,
    marks: &[u8],
    worked: &[u64],
    senders: &[u64],
    left: &[u32],
    room: &[u32],
    lasts: &mut [u32],
    depths: &mut [u32],
)
    requires shape_in_range { (ShapeInRange shape) × (length marks.now ≡ squares shape) × (length left.now ≡ squares shape) × (length room.now ≡ squares shape) × (length lasts.old ≡ squares shape) × (length depths.old ≡ squares shape) }
    requires worked_len { (length worked.now ≡ shape.rows) × (length senders.now ≡ shape.rows) × (SameBeyond (plan shape marks.now) worked.now senders.now depths.old room.now) }
    ensures { (Written (skips_by (plan shape marks.now) worked.now) (λ i. slice_index left.now i) 0 (squares shape) lasts.old lasts.new) × (Written (shut (plan shape marks.now)) (λ i. slice_index room.now i) 0 (squares shape) depths.old depths.new) }
{
    let rows = shape.rows;
    let columns = shape.columns;
    let mut first = 0;
    for row in 0..rows {
        let columns_worked = worked[row];
        write_row(shape, marks, left, first, columns_worked, lasts);
        let columns_reached = reached(worked, senders, row);
        cover_row(shape, marks, room, first, columns_reached, depths);
        first += columns;
    }
}
