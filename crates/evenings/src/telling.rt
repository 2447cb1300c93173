// A line of a log read, taken, and what is printed of it.
ghost use Rattle.std.specs.Prelude.{◌≡◌, List, ℕ, ◌≤◌, length};
ghost use Rattle.grid.specs.Squares.{ShapeInRange, squares};
ghost use Rattle.ledger.specs.Runs.{plan};
ghost use Rattle.checks.specs.Given.{given, ground};
ghost use Rattle.programs.specs.Program.{Prints, most_printed, program_squares};
ghost use Rattle.hatches.specs.Log.{evening};
ghost use Rattle.evenings.specs.Shown.{TakesLine, entry_text, is_shown};

use crate::taking::take_entry;
use answer::printing::{put_refused, put_world};
use grid::squares::Shape;
use hatches::lines::{Entry, log_line};
use hatches::log::Log;
use programs::limits::OUT_ROOM;
use rule::rules::Rules;

// What came of a line: the number that it is refused with, 0 for none, where the next line starts, how many bytes are to be printed, and the
// log after it.
#[derive(Clone, Copy)]
pub struct LineTaken {
    pub number: u32,
    pub next: usize,
    pub length: usize,
    pub log: Log,
}

// Whether what stands is printed after a line.
fn is_shown(entry: Entry) -> bool
    ensures { result ≡ is_shown entry }
{
    match entry {
        Entry::Hatch(number, row, column) => false,
        Entry::Rate(clock, number, litres) => true,
        Entry::Back(count) => true,
    }
}

// What is printed of a line, at the start of out; its length.
fn put_entry(
    entry: Entry,
    number: u32,
    line: usize,
    log: Log,
    shape: Shape,
    marks: &[u8],
    depths: &[u32],
    out: &mut [u8],
) -> usize
    requires { (number ≡ 0 → (ShapeInRange shape) × (squares shape ≤ program_squares) × (length marks.now ≡ squares shape) × (length depths.now ≡ squares shape)) × (most_printed ≤ length out.old) }
    ensures { (lasts records began : List ℕ) → Prints (entry_text (plan shape marks.now) number entry line (evening depths.now lasts records began log)) out.old out.new result }
{
    if number == 12 {
        return put_refused(out, 0, 12, line);
    }
    if number != 0 {
        return put_refused(out, 0, number, 0);
    }
    if !is_shown(entry) {
        return 0;
    }
    put_world(out, 0, shape, marks, depths, log.run, log.steps)
}

// Takes the line at a position, the so-manieth of the log: what it does, and what is printed of it at the start of out.
pub fn take_line(
    text: &[u8],
    at: usize,
    line: usize,
    log: Log,
    shape: Shape,
    rules: Rules,
    marks: &[u8],
    beds: &[u32],
    roughness: &[u32],
    rates: &[u32],
    rain: &[u32],
    inflow: &[u32],
    depths: &mut [u32],
    lasts: &mut [u32],
    records: &mut [u32],
    began: &mut [u32],
    out: &mut [u8; OUT_ROOM],
) -> LineTaken
    ensures { TakesLine (plan shape marks.now) (given (ground rules beds.now roughness.now rates.now) rain.now inflow.now) text.now at line (evening depths.old lasts.old records.old began.old log) result (evening depths.new lasts.new records.new began.new result.log) out.old out.new }
{
    let read = log_line(text, at);
    let Some(entry) = read.entry else {
        return LineTaken {
            number: 12,
            next: read.next,
            length: put_refused(out, 0, 12, line),
            log: log,
        };
    };
    let came = take_entry(
        Some(entry),
        log,
        shape,
        rules,
        marks,
        beds,
        roughness,
        rates,
        rain,
        inflow,
        depths,
        lasts,
        records,
        began,
    );
    let number = came.number;
    let after = came.log;
    let length = put_entry(entry, number, line, after, shape, marks, depths, out);
    LineTaken {
        number: number,
        next: read.next,
        length: length,
        log: after,
    }
}
