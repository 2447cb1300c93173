// What is printed of the highest water of one sheet: the whole program short of its input and output.
ghost use Rattle.std.specs.Prelude.{◌+◌, ◌<◌, ◌≤◌, length};
ghost use Rattle.grid.specs.Squares.{ShapeInRange, squares};
ghost use Rattle.ledger.specs.Runs.{plan};
ghost use Rattle.text.specs.Writing.{Wrote};
ghost use Rattle.programs.specs.Program.{Prints, most_printed, program_squares};
ghost use Rattle.peaks.specs.Highest.{high_text, highs_text, high_run_text, highest_text};
ghost use Rattle.peaks.specs.Inner.Sheets.{PutHighest};

use crate::running::run_peaks;
use answer::printing::{put_refused, put_totals};
use checks::fresh::fresh_run;
use flood::run::Ran;
use grid::marks::is_closed;
use grid::squares::{Shape, squares_of};
use programs::limits::{OUT_ROOM, PROGRAM_SQUARES};
use programs::printer::{Printer, printed_of};
use reckon::numbers::number;
use sheet::reading::Heading;
use text::writing::put_line;

// The line of a square, none where it is closed.
fn put_high(
    out: &mut [u8],
    at: usize,
    shape: Shape,
    marks: &[u8],
    peaks: &[u32],
    clocks: &[u32],
    square: usize,
) -> usize
    requires shape_in_range { (ShapeInRange shape) × (square < length marks.now) × (square < length peaks.now) × (square < length clocks.now) }
    requires square_in_bounds { at + length (high_text (plan shape marks.now) peaks.now clocks.now square) ≤ length out.old }
    ensures { Wrote (high_text (plan shape marks.now) peaks.now clocks.now square) at out.old out.new result }
{
    if is_closed(marks, square) {
        return at;
    }
    let columns = shape.columns;
    let values = [
        (square / columns) as u64,
        (square % columns) as u64,
        number(peaks, square),
        number(clocks, square),
    ];
    put_line(out, at, b"cell", &values)
}

// The lines of all squares.
fn put_highs(
    out: &mut [u8],
    at: usize,
    shape: Shape,
    marks: &[u8],
    peaks: &[u32],
    clocks: &[u32],
) -> usize
    requires shape_in_range { (ShapeInRange shape) × (squares shape ≤ length marks.now) × (squares shape ≤ length peaks.now) × (squares shape ≤ length clocks.now) }
    requires clocks_in_bounds { at + length (highs_text (plan shape marks.now) peaks.now clocks.now) ≤ length out.old }
    ensures { Wrote (highs_text (plan shape marks.now) peaks.now clocks.now) at out.old out.new result }
{
    let squares = squares_of(shape);
    let mut next = at;
    for square in 0..squares {
        next = put_high(out, next, shape, marks, peaks, clocks, square);
    }
    next
}

// What a run gave, or its refusal alone, at the start of out.
fn put_highest(
    out: &mut [u8],
    shape: Shape,
    marks: &[u8],
    peaks: &[u32],
    clocks: &[u32],
    ran: Ran,
) -> usize
    requires shape_in_range { (ShapeInRange shape) × (squares shape ≤ program_squares) × (most_printed ≤ length out.old) }
    requires shape_in_bounds { (squares shape ≤ length marks.now) × (squares shape ≤ length peaks.now) × (squares shape ≤ length clocks.now) }
    ensures { PutHighest (plan shape marks.now) peaks.now clocks.now ran out.old out.new result }
{
    if ran.refused != 0 {
        return put_refused(out, 0, ran.refused, 0);
    }
    let next = put_highs(out, 0, shape, marks, peaks, clocks);
    put_totals(out, next, ran.run, ran.steps)
}

// The run, and each square's peak with its clock.
struct Highest;

impl Printer for Highest {
    ghost printed = { λ it. high_run_text };

    fn print(
        &self,
        out: &mut [u8],
        heading: Heading,
        marks: &[u8],
        beds: &[u32],
        roughness: &[u32],
        rates: &[u32],
        rain: &[u32],
        inflow: &[u32],
        depths: &mut [u32],
        lasts: &mut [u32],
        records: &mut [u32],
    ) -> usize {
        let mut peaks = [0u32; PROGRAM_SQUARES];
        let mut clocks = [0u32; PROGRAM_SQUARES];
        let squares = squares_of(heading.shape);
        let run = fresh_run(heading.rules, 1);
        let ran = run_peaks(
            heading.shape,
            heading.rules,
            run,
            heading.end,
            marks,
            beds,
            roughness,
            rates,
            rain,
            inflow,
            depths,
            lasts,
            records,
            &mut peaks[..squares],
            &mut clocks[..squares],
        );
        put_highest(
            out,
            heading.shape,
            marks,
            &peaks[..squares],
            &clocks[..squares],
            ran,
        )
    }
}

// What is printed of a text, at the start of out; the answer is its length.
pub fn highest_of(text: &[u8], out: &mut [u8; OUT_ROOM]) -> usize
    ensures { Prints (highest_text text.now) out.old out.new result }
{
    printed_of(&Highest, text, out)
}
