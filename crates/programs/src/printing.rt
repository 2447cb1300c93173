// What is printed of a run.
ghost use Rattle.std.specs.Prelude.{◌≡◌, ◌+◌, ◌≤◌, length};
ghost use Rattle.grid.specs.Squares.{ShapeInRange, squares};
ghost use Rattle.ledger.specs.Runs.{plan};
ghost use Rattle.programs.specs.Program.{PutRan, bytes_for};

use answer::printing::{put_refused, put_world};
use flood::run::Ran;
use grid::squares::Shape;

// What a run left, or its refusal alone, put into a lent room at a place.
pub fn put_ran(
    out: &mut [u8],
    at: usize,
    shape: Shape,
    marks: &[u8],
    depths: &[u32],
    ran: Ran,
) -> usize
    requires shape_in_range { (ShapeInRange shape) × (squares shape ≡ length marks.now) × (squares shape ≡ length depths.now) }
    requires shape_in_bounds { at + bytes_for (squares shape) ≤ length out.old }
    ensures { PutRan (plan shape marks.now) depths.now ran at out.old out.new result }
{
    if ran.refused != 0 {
        return put_refused(out, at, ran.refused, 0);
    }
    put_world(out, at, shape, marks, depths, ran.run, ran.steps)
}
