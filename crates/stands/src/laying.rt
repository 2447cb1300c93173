// A state read from its text: the text and the checks decide with nothing lent written, and then the rooms are filled.
ghost use Rattle.std.specs.Prelude.{◌≡◌, ◌<◌, ◌≤◌, length};
ghost use Rattle.grid.specs.Squares.{ShapeInRange, squares};
ghost use Rattle.ledger.specs.Runs.{plan};
ghost use Rattle.stands.specs.Laying.{Lays, bad_line, saved_from, water};
ghost use Rattle.stands.specs.Inner.Passing.{Decided, NamedRead};

use crate::heads::{Head, read_head};
use crate::judging::checked;
use crate::naming::{Named, read_hatches};
use crate::saved::{Laid, Saved};
use crate::squares::{pass_squares, store_squares};
use grid::squares::{Shape, squares_of};
use hatches::log::Log;
use ledger::runs::Run;

// The number of the first line after the hatches', were there none.
const FIRST_SQUARE_LINE: usize = 6;

// What the lines before the squares say, with no step kept.
fn saved_from(head: Head, named: Named, slots: usize) -> Saved
    requires { 0 < slots }
    ensures { result ≡ saved_from slots head named }
{
    let hatches = named.hatches;
    let litres = named.litres;
    Saved {
        log: Log {
            run: Run {
                clock: head.clock,
                length: head.length,
                outflow: head.outflow,
                kept: 0,
                newest: slots - 1,
                soaked: head.soaked,
            },
            steps: head.steps,
            opening: head.opening,
            hatches: hatches,
            litres: litres,
        },
        start: head.start,
        given: head.given,
    }
}

// The number of the first line that cannot be read, 0 for none.
fn bad_line(text: &[u8], head: Head, named: Named, shape: Shape, marks: &[u8]) -> usize
    requires { (ShapeInRange shape) × (squares shape ≤ length marks.now) × (NamedRead text.now head named) }
    ensures { result ≡ bad_line text.now (plan shape marks.now) }
{
    if head.bad != 0 {
        return head.bad;
    }
    let scan = pass_squares(text, named.next, shape, marks);
    let line = FIRST_SQUARE_LINE + named.lines + scan.lines;
    if scan.count < squares_of(shape) {
        return line;
    }
    if scan.next < text.len() {
        return line;
    }
    0
}

// What a text gives, and where its squares' lines start.
#[derive(Clone, Copy)]
pub(crate) struct Verdict {
    pub(crate) laid: Laid,
    pub(crate) squares_at: usize,
}

// Whether a text is refused: its lines, and then 3, 4 and 6.
fn decide(text: &[u8], shape: Shape, slots: usize, marks: &[u8], inflow: &[u32]) -> Verdict
    requires { (ShapeInRange shape) × (squares shape ≤ length marks.now) × (0 < slots) }
    ensures { Decided (plan shape marks.now) inflow.now slots text.now result }
{
    let head = read_head(text);
    let named = read_hatches(text, head.next);
    let saved = saved_from(head, named, slots);
    let squares_at = named.next;
    let bad = bad_line(text, head, named, shape, marks);
    if bad != 0 {
        return Verdict {
            laid: Laid {
                number: 12,
                line: bad,
                saved: saved,
            },
            squares_at: squares_at,
        };
    }
    let number = checked(text, squares_at, shape, slots, marks, inflow, saved);
    Verdict {
        laid: Laid {
            number: number,
            line: 0,
            saved: saved,
        },
        squares_at: squares_at,
    }
}

// Reads a state into rooms, or refuses it and leaves them as they were.
pub fn read_stand(
    text: &[u8],
    shape: Shape,
    slots: usize,
    marks: &[u8],
    inflow: &[u32],
    depths: &mut [u32],
    lasts: &mut [u32],
) -> Laid
    requires { (ShapeInRange shape) × (squares shape ≤ length marks.now) × (squares shape ≤ length depths.old) × (squares shape ≤ length lasts.old) × (0 < slots) }
    ensures { Lays (plan shape marks.now) inflow.now slots text.now (water depths.old lasts.old) result (water depths.new lasts.new) }
{
    let verdict = decide(text, shape, slots, marks, inflow);
    let laid = verdict.laid;
    if laid.number != 0 {
        return laid;
    }
    store_squares(text, verdict.squares_at, shape, marks, depths, lasts);
    laid
}
