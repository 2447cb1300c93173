// The rows of the grid as 64-bit numbers, a bit by column: the mask of a row and those of all rows, its ones, and the next set column.
ghost use Rattle.std.specs.Prelude.{◌≡◌, ◌<◌, ◌≤◌, length};
ghost use Rattle.grid.specs.Masks.{Masked, NextFound, OnesOf, RowLent, RowMasked, RowsLent, bits, digit, is_wet};

use crate::marks::is_closed;
use crate::squares::Shape;

// The most columns of a mask.
const BITS: usize = 64;

// 1 for a square that is not closed and at least that deep, else 0.
fn wet_digit(marks: &[u8], depths: &[u32], least: u32, square: usize) -> u64
    requires { (square < length marks.now) × (square < length depths.now) }
    ensures { result ≡ digit (is_wet marks.now depths.now least square) }
{
    if is_closed(marks, square) {
        return 0;
    }
    if least <= depths[square] {
        return 1;
    }
    0
}

// The mask of a row of squares: bit c is set where the square in column c is not closed and at least that deep.
pub fn row_mask(marks: &[u8], depths: &[u32], least: u32, first: usize, columns: usize) -> u64
    requires { RowLent marks.now depths.now first columns }
    ensures { RowMasked marks.now depths.now least first columns result }
{
    let mut mask: u64 = 0;
    for column in (0..columns).rev() {
        mask = mask * 2 + wet_digit(marks, depths, least, first + column);
    }
    mask
}

// Puts the mask of each row of the grid into a row slice.
pub fn mask_rows(shape: Shape, marks: &[u8], depths: &[u32], least: u32, rows: &mut [u64])
    requires { RowsLent shape marks.now depths.now rows.old }
    ensures { Masked shape marks.now depths.now least rows.new }
{
    let columns = shape.columns;
    let mut first = 0;
    for mask in rows.iter_mut() {
        *mask = row_mask(marks, depths, least, first, columns);
        first += columns;
    }
}

// The number of set bits.
pub fn ones(mask: u64) -> u64
    ensures { OnesOf mask result }
{
    u64::count_ones(mask) as u64
}

// The next set column at or after a column, or 64 where there is none.
pub fn next_set(mask: u64, column: usize) -> usize
    requires { column ≤ bits }
    ensures { NextFound mask column result }
{
    if column == BITS {
        return BITS;
    }
    let next = column + u64::trailing_zeros(mask >> column) as usize;
    next.min(BITS)
}
