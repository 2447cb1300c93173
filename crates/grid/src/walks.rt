// The wet walk: which squares a step works, the next of them in a row, and the squares beside them.
ghost use Rattle.std.specs.Prelude.{◌≡◌, ◌+◌, ◌<◌, ◌≤◌, get_or, length};
ghost use Rattle.grid.specs.Masks.{bits};
ghost use Rattle.grid.specs.Walks.{BesideSet, LowestSet, NextWithin, WithinRow, WithoutLowest, row_above};

use crate::masks::next_set;

// Whether a step works the sides of all squares, or goes from one square with water to the next.
#[derive(Clone, Copy)]
pub enum Walk {
    All,
    Wet,
}

// The least depth of a square with water.
pub const LEAST_WET: u32 = 1;

// The next set column at or after a column, or the number of columns where none comes before their end.
pub fn next_within(mask: u64, column: usize, columns: usize) -> usize
    requires { (column ≤ columns) × (columns ≤ bits) }
    ensures { NextWithin mask column columns result }
{
    next_set(mask, column).min(columns)
}

// The next set column after a column, or the number of columns where none comes before their end.
pub fn next_after(mask: u64, column: usize, columns: usize) -> usize
    requires { (column < columns) × (columns ≤ bits) }
    ensures { NextWithin mask (column + 1) columns result }
{
    let next = column + 1 + u64::trailing_zeros(mask >> column >> 1) as usize;
    next.min(columns)
}

// The columns of a mask that a row with so many has.
pub fn within_row(mask: u64, columns: usize) -> u64
    requires { (0 < columns) × (columns ≤ bits) }
    ensures { WithinRow mask columns result }
{
    let beyond = 64 - columns;
    mask << beyond >> beyond
}

// The lowest set column of a mask that has one.
pub fn lowest_set(mask: u64) -> usize
    requires { 0 < mask }
    ensures { LowestSet mask result }
{
    u64::trailing_zeros(mask) as usize
}

// A mask without its lowest set column.
pub fn without_lowest(mask: u64) -> u64
    requires { 0 < mask }
    ensures { WithoutLowest mask result }
{
    mask & (mask - 1)
}

// The mask of the row above, 0 for none.
fn row_above(rows: &[u64], row: usize) -> u64
    requires { row < length rows.now }
    ensures { result ≡ row_above rows.now row }
{
    if row == 0 {
        return 0;
    }
    rows[row - 1]
}

// The mask of the row below, 0 for none.
fn row_below(rows: &[u64], row: usize) -> u64
    requires { row < length rows.now }
    ensures { result ≡ get_or rows.now (row + 1) 0 }
{
    rows.get(row + 1).copied().unwrap_or(0)
}

// The columns of a row that are set, or lie beside a set one of the row, of the row above or of the row below.
pub fn beside_set(rows: &[u64], row: usize) -> u64
    requires { row < length rows.now }
    ensures { BesideSet rows.now row result }
{
    let own = rows[row];
    own | own << 1 | own >> 1 | row_above(rows, row) | row_below(rows, row)
}
