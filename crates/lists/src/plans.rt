// Whether two grids are one: the same shape, and the same marks.
ghost use Rattle.std.specs.Prelude.{◌≡◌, ◌≤◌, length};
ghost use Rattle.grid.specs.Squares.{ShapeInRange, squares};
ghost use Rattle.ledger.specs.Runs.{plan};
ghost use Rattle.lists.specs.Sheets.{same_plan};

use grid::squares::{Shape, squares_of};

pub(crate) fn same_plan(shape: Shape, marks: &[u8], other: Shape, others: &[u8]) -> bool
    requires { (ShapeInRange shape) × (squares shape ≤ length marks.now) × (squares shape ≤ length others.now) }
    ensures { result ≡ same_plan (plan shape marks.now) (plan other others.now) }
{
    if shape.rows != other.rows {
        return false;
    }
    if shape.columns != other.columns {
        return false;
    }
    let squares = squares_of(shape);
    marks[..squares] == others[..squares]
}
