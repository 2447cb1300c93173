// What is kept from sheet to sheet of a list.
ghost use Rattle.std.specs.Prelude.{◌≡◌, true, ◌<◌, ◌≤◌, length, take};
ghost use Rattle.reckon.specs.Tests.{pick};
ghost use Rattle.reckon.specs.Lists.{placed};
ghost use Rattle.grid.specs.Squares.{ShapeInRange, squares};
ghost use Rattle.programs.specs.Program.{program_squares};
ghost use Rattle.lists.specs.Names.{most_sheets};
ghost use Rattle.lists.specs.Sheets.{file_of};
ghost use Rattle.lists.specs.Tally.{Begins, TakesSheet, rooms};
ghost use Rattle.lists.specs.Inner.Judged.{TakesAccepted, full_tally, one_more};

use crate::judging::{First, judge};
use crate::merging::{Merging, merge};
use crate::names::MOST_SHEETS;
use grid::squares::{Shape, squares_of};
use programs::limits::PROGRAM_SQUARES;
use reckon::copying::copy_into;

// The depth that counts; how many names were taken; whether a sheet was accepted, and the first one's shape; and the number that the newest was
// refused with, 0 for none.
#[derive(Clone, Copy)]
pub struct Tally {
    pub wet: u32,
    pub taken: usize,
    pub begun: bool,
    pub shape: Shape,
    pub number: u32,
}

// Before the first name.
pub fn begin_tally(wet: u32) -> Tally
    ensures { Begins wet result }
{
    Tally {
        wet: wet,
        taken: 0,
        begun: false,
        shape: Shape {
            rows: 0,
            columns: 0,
        },
        number: 0,
    }
}

// Where 200 names have been taken there is room for no more.
fn full(tally: Tally) -> Tally
    ensures { result ≡ full_tally tally }
{
    Tally {
        number: 16,
        ..tally
    }
}

// The tally after a name that was refused.
fn noted(tally: Tally, number: u32) -> Tally
    requires { tally.taken < most_sheets }
    ensures { result ≡ one_more tally tally.begun tally.shape number }
{
    Tally {
        taken: tally.taken + 1,
        number: number,
        ..tally
    }
}

// The tally after a sheet that was accepted.
fn accepted(tally: Tally, shape: Shape) -> Tally
    requires { tally.taken < most_sheets }
    ensures { result ≡ one_more tally true shape 0 }
{
    Tally {
        wet: tally.wet,
        taken: tally.taken + 1,
        begun: true,
        shape: shape,
        number: 0,
    }
}

// The first accepted sheet's marks are kept.
fn keep_first(begun: bool, from: &[u8], marks: &mut [u8])
    requires { length from.now ≤ length marks.old }
    ensures { marks.new ≡ pick begun marks.old (placed marks.old 0 from.now) }
{
    if begun {
        return;
    }
    marks[..from.len()].copy_from_slice(from);
}

// One accepted sheet more, whose marks and peaks lie at the start of their rooms.
fn take_accepted(
    tally: Tally,
    shape: Shape,
    sheet_marks: &[u8],
    peaks: &[u32],
    marks: &mut [u8],
    counts: &mut [u8],
    deepest: &mut [u32],
    places: &mut [u8],
) -> Tally
    requires taken_lt_most_sheets { (tally.taken < most_sheets) × (ShapeInRange shape) × (squares shape ≤ program_squares) }
    requires sheet_marks_len { (length sheet_marks.now ≡ program_squares) × (length peaks.now ≡ program_squares) × (length marks.old ≡ program_squares) }
    requires counts_len { (length counts.old ≡ program_squares) × (length deepest.old ≡ program_squares) × (length places.old ≡ program_squares) }
    ensures { TakesAccepted tally shape (take (squares shape) sheet_marks.now) (take (squares shape) peaks.now) marks.old counts.old deepest.old places.old result marks.new counts.new deepest.new places.new }
{
    let squares = squares_of(shape);
    keep_first(tally.begun, &sheet_marks[..squares], marks);
    let merging = Merging {
        begun: tally.begun,
        wet: tally.wet,
        place: (tally.taken + 1) as u8,
    };
    merge(
        merging,
        shape,
        marks,
        &peaks[..squares],
        counts,
        deepest,
        places,
    );
    accepted(tally, shape)
}

// Takes the next name of a list: whether its file was opened, and its bytes.
pub fn take_sheet(
    tally: Tally,
    opened: bool,
    text: &[u8],
    marks: &mut [u8; PROGRAM_SQUARES],
    counts: &mut [u8; PROGRAM_SQUARES],
    deepest: &mut [u32; PROGRAM_SQUARES],
    places: &mut [u8; PROGRAM_SQUARES],
    numbers: &mut [u32; MOST_SHEETS],
) -> Tally
    ensures { TakesSheet tally (file_of opened text.now) (rooms marks.old counts.old deepest.old places.old numbers.old) result (rooms marks.new counts.new deepest.new places.new numbers.new) }
{
    let taken = tally.taken;
    if MOST_SHEETS <= taken {
        return full(tally);
    }
    let mut sheet_marks = [0u8; PROGRAM_SQUARES];
    let mut peaks = [0u32; PROGRAM_SQUARES];
    let first_shape = tally.shape;
    let first = First {
        begun: tally.begun,
        shape: first_shape,
    };
    let judged = judge(first, marks, opened, text, &mut sheet_marks, &mut peaks);
    let number = judged.number;
    let noted_number = [number];
    copy_into(&noted_number, numbers, taken);
    if number != 0 {
        return noted(tally, number);
    }
    let shape = judged.shape;
    take_accepted(
        tally,
        shape,
        &sheet_marks,
        &peaks,
        marks,
        counts,
        deepest,
        places,
    )
}
