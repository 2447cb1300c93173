// The most and the least steps to an end, as text.
ghost use Rattle.std.specs.Prelude.{[], ◌∷◌, ◌+◌, ◌≤◌, length};
ghost use Rattle.text.specs.Writing.{Wrote, line_text};
ghost use Rattle.frames.specs.Bounds.{PutBounds, most_bounds, most_word};

use checks::bounds::{Bounds, StepBounds};
use text::writing::{put_line, put_word};

// The line of both figures.
fn put_both(out: &mut [u8], at: usize, figures: StepBounds) -> usize
    requires { at + most_bounds ≤ length out.old }
    ensures { Wrote (line_text most_word (figures.most ∷ figures.least ∷ [])) at out.old out.new result }
{
    let values = [figures.most, figures.least];
    put_line(out, at, b"most", &values)
}

// The figures, or that there are none; of a refusal nothing, since the caller prints it.
pub fn put_bounds(out: &mut [u8], at: usize, bounds: Bounds) -> usize
    requires { at + most_bounds ≤ length out.old }
    ensures { PutBounds bounds at out.old out.new result }
{
    match bounds {
        Bounds::Bounded(figures) => put_both(out, at, figures),
        Bounds::NotBounded => put_word(out, at, b"unbounded\n"),
        Bounds::Refused(_) => at,
    }
}
