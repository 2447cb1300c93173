// One sheet judged: the reader's number, then 14, then its run's own.
ghost use Rattle.std.specs.Prelude.{◌≡◌, true, ◌≤◌, length, replicate, take};
ghost use Rattle.reckon.specs.Tests.{pick};
ghost use Rattle.grid.specs.Squares.{ShapeInRange, squares};
ghost use Rattle.ledger.specs.Runs.{plan};
ghost use Rattle.sheet.specs.Sheet.{rooms};
ghost use Rattle.programs.specs.Program.{program_squares};
ghost use Rattle.programs.specs.Inner.Held.{Holds, parts_of};
ghost use Rattle.lists.specs.Sheets.{file_of, same_plan};
ghost use Rattle.lists.specs.Sheets.File.{holds};
ghost use Rattle.lists.specs.Inner.Judged.{Judges, RunsJudged, refused_with};

use crate::plans::same_plan;
use grid::squares::{Shape, squares_of};
use peaks::running::run_sheet_peaks;
use programs::limits::{MOST_TEXT, PROGRAM_SQUARES};
use programs::reading::read_within;
use reckon::tables::{INFLOW_ROOM, RAIN_ROOM};
use sheet::reading::{Heading, Sheet};

// The number that a sheet is refused with, 0 for none, and the shape of an accepted one.
#[derive(Clone, Copy)]
pub(crate) struct Judged {
    pub(crate) number: u32,
    pub(crate) shape: Shape,
}

// Whether one was accepted before, and the first one's shape.
#[derive(Clone, Copy)]
pub(crate) struct First {
    pub(crate) begun: bool,
    pub(crate) shape: Shape,
}

fn refused(number: u32) -> Judged
    ensures { result ≡ refused_with number }
{
    Judged {
        number: number,
        shape: Shape {
            rows: 0,
            columns: 0,
        },
    }
}

// Whether a sheet has the first accepted one's plan; the first one of all is held against none.
fn is_like_first(first: First, firsts: &[u8], shape: Shape, marks: &[u8]) -> bool
    requires { (ShapeInRange shape) × (squares shape ≤ length marks.now) × (squares shape ≤ length firsts.now) }
    ensures { result ≡ pick first.begun (same_plan (plan shape (take (squares shape) marks.now)) (plan first.shape firsts.now)) true }
{
    if !first.begun {
        return true;
    }
    let squares = squares_of(shape);
    let first_shape = first.shape;
    same_plan(shape, &marks[..squares], first_shape, firsts)
}

// A sheet that was read into the rooms, held against the first accepted one and run to its end.
fn run_judged(
    first: First,
    firsts: &[u8],
    heading: Heading,
    marks: &[u8],
    beds: &[u32],
    roughness: &[u32],
    rates: &[u32],
    rain: &[u32],
    inflow: &[u32],
    depths: &mut [u32],
    peaks: &mut [u32],
) -> Judged
    requires holds { Holds program_squares heading (rooms marks.now beds.now roughness.now rates.now depths.old rain.now inflow.now) }
    requires firsts_len { (length firsts.now ≡ program_squares) × (peaks.old ≡ replicate program_squares 0) }
    ensures { RunsJudged first.begun (plan first.shape firsts.now) heading (parts_of heading (rooms marks.now beds.now roughness.now rates.now depths.old rain.now inflow.now)) result peaks.new }
{
    let shape = heading.shape;
    if !is_like_first(first, firsts, shape, marks) {
        return refused(14);
    }
    let mut clocks = [0u32; PROGRAM_SQUARES];
    let ran = run_sheet_peaks(
        heading,
        marks,
        beds,
        roughness,
        rates,
        rain,
        inflow,
        depths,
        peaks,
        &mut clocks,
    );
    Judged {
        number: ran.refused,
        shape: shape,
    }
}

// One sheet's text read and judged, its marks and peaks at the start of rooms that held nothing.
// No `Printer`: it prints nothing, and marks and peaks are its caller's to keep.
fn judge_text(
    first: First,
    firsts: &[u8],
    text: &[u8],
    marks: &mut [u8],
    peaks: &mut [u32],
) -> Judged
    requires { (length firsts.now ≡ program_squares) × (marks.old ≡ replicate program_squares 0) × (peaks.old ≡ replicate program_squares 0) }
    ensures { Judges first.begun (plan first.shape firsts.now) (holds text.now) result marks.new peaks.new }
{
    let mut beds = [0u32; PROGRAM_SQUARES];
    let mut roughness = [0u32; PROGRAM_SQUARES];
    let mut rates = [0u32; PROGRAM_SQUARES];
    let mut depths = [0u32; PROGRAM_SQUARES];
    let mut rain = [0u32; RAIN_ROOM];
    let mut inflow = [0u32; INFLOW_ROOM];
    let sheet = read_within(
        text,
        MOST_TEXT,
        marks,
        &mut beds,
        &mut roughness,
        &mut rates,
        &mut depths,
        &mut rain,
        &mut inflow,
    );
    match sheet {
        Sheet::Refused(number, line) => refused(number),
        Sheet::Read(heading) => run_judged(
            first,
            firsts,
            heading,
            marks,
            &beds,
            &roughness,
            &rates,
            &rain,
            &inflow,
            &mut depths,
            peaks,
        ),
    }
}

// One sheet's text, or one that could not be opened.
pub(crate) fn judge(
    first: First,
    firsts: &[u8],
    opened: bool,
    text: &[u8],
    marks: &mut [u8],
    peaks: &mut [u32],
) -> Judged
    requires { (length firsts.now ≡ program_squares) × (marks.old ≡ replicate program_squares 0) × (peaks.old ≡ replicate program_squares 0) }
    ensures { Judges first.begun (plan first.shape firsts.now) (file_of opened text.now) result marks.new peaks.new }
{
    if !opened {
        return refused(12);
    }
    judge_text(first, firsts, text, marks, peaks)
}
