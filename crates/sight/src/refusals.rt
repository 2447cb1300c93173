// The refusals that arrows and wet rows share: 1, but for what only one of them is lent, 2 and 3.
ghost use Rattle.std.specs.Prelude.{◌≡◌, [], ◌∷◌};
ghost use Rattle.reckon.specs.Tests.{every, refusal};
ghost use Rattle.grid.specs.Squares.{shape_fine};
ghost use Rattle.ledger.specs.Runs.{plan};
ghost use Rattle.ledger.specs.Checks.{WaterLent, one_each};
ghost use Rattle.sight.specs.Refusals.{depths_fine, shared_refusals};

use grid::marks::marks_fine;
use grid::squares::{Shape, shape_fine};
use ledger::lent::{one_each, waters_fine};

// Refusal 1: the shape is in range, and marks and depths have one number a square.
fn seen_sizes_fine(shape: Shape, marks: &[u8], depths: &[u32]) -> bool
    ensures { result ≡ every (shape_fine shape ∷ one_each (plan shape marks.now) marks.now ∷ one_each (plan shape marks.now) depths.now ∷ []) }
{
    if !shape_fine(shape) {
        return false;
    }
    if !one_each(shape, marks.len()) {
        return false;
    }
    one_each(shape, depths.len())
}

// Refusal 3: the depth of every square not closed is in range. No last leaving is lent, and the depths stand for it.
fn depths_fine(shape: Shape, marks: &[u8], depths: &[u32]) -> bool
    requires { WaterLent (plan shape marks.now) depths.now depths.now }
    ensures { result ≡ depths_fine (plan shape marks.now) depths.now }
{
    waters_fine(shape, marks, depths, depths)
}

// The number of the first of the refusals 1 to 3, 0 for none. `more` says whether the caller's further tests of 1 hold.
pub(crate) fn shared_refusal(shape: Shape, marks: &[u8], depths: &[u32], more: bool) -> u32
    ensures { result ≡ refusal (shared_refusals (plan shape marks.now) depths.now more) }
{
    if !seen_sizes_fine(shape, marks, depths) {
        return 1;
    }
    if !more {
        return 1;
    }
    if !marks_fine(shape, marks) {
        return 2;
    }
    if !depths_fine(shape, marks, depths) {
        return 3;
    }
    0
}
