// Wet rows: each row of the grid as one 64-bit number, and the count of wet squares.
ghost use Rattle.std.specs.Prelude.{◌≡◌, ◌≤◌, length};
ghost use Rattle.reckon.specs.Tests.{refusal};
ghost use Rattle.grid.specs.Squares.{most_along};
ghost use Rattle.ledger.specs.Runs.{plan};
ghost use Rattle.sight.specs.WetRows.{OnesIn, WetRowed, wet_refusals};

use crate::refusals::shared_refusal;
use grid::masks::{mask_rows, ones};
use grid::squares::Shape;
use reckon::ranges::MOST_DEPTH;

#[derive(Clone, Copy)]
pub enum Wet {
    Count(u64),
    Refused(u32),
}

// The number of ones over all rows.
pub fn ones_in(rows: &[u64]) -> u64
    requires { length rows.now ≤ most_along }
    ensures { OnesIn rows.now result }
{
    let mut total: u64 = 0;
    for row in rows {
        total += ones(*row);
    }
    total
}

// The number of the first refusal, 0 for none, for a row slice of some numbers.
fn wet_refusal(shape: Shape, marks: &[u8], depths: &[u32], wet_depth: u32, numbers: usize) -> u32
    ensures { result ≡ refusal (wet_refusals (plan shape marks.now) depths.now wet_depth numbers) }
{
    let shared = shared_refusal(shape, marks, depths, numbers == shape.rows);
    if shared != 0 {
        return shared;
    }
    if MOST_DEPTH < wet_depth {
        return 5;
    }
    0
}

// The wet rows and their count; refused, the row slice stays as it was.
pub fn wet_rows(shape: Shape, marks: &[u8], depths: &[u32], wet_depth: u32, rows: &mut [u64]) -> Wet
    ensures { WetRowed (plan shape marks.now) depths.now wet_depth rows.old result rows.new }
{
    let refused = wet_refusal(shape, marks, depths, wet_depth, rows.len());
    if refused != 0 {
        return Wet::Refused(refused);
    }
    mask_rows(shape, marks, depths, wet_depth, rows);
    Wet::Count(ones_in(rows))
}
