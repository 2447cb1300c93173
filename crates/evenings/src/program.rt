// What `hatchlog` prints of a sheet's and a log's text, a line of the log at a time: the whole program short of its files.
ghost use Rattle.std.specs.Prelude.{◌≡◌, true, [], ◌∷◌, ◌<◌, ◌≤◌, ◌+◌, eqb, ltb, length, replicate};
ghost use Rattle.reckon.specs.Tests.{every};
ghost use Rattle.grid.specs.Squares.{ShapeInRange, squares};
ghost use Rattle.programs.specs.Program.{program_rooms, program_squares};
ghost use Rattle.sheet.specs.Sheet.{rooms};
ghost use Rattle.evenings.specs.Program.{Begins, Cleared, GoesOn, first_night, is_left, night_fine, night_fits, night_over, no_night, stores};
ghost use Rattle.evenings.specs.Inner.Sizes.{SizesAre, night_with, sizes_fit};

use crate::telling::{LineTaken, take_line};
use answer::printing::put_refused;
use checks::fresh::fresh_run;
use grid::squares::{Shape, shape_fine, squares_of};
use hatches::log::{Log, MOST_HATCHES, MOST_KEPT, MOST_NUMBERS, kept_records, open_log};
use ledger::record::record_size;
use ledger::runs::Run;
use programs::limits::{MOST_TEXT, OUT_ROOM, PROGRAM_SQUARES};
use reckon::ranges::MOST_TABLE_ROWS;
use reckon::tables::{INFLOW_ROOM, INFLOW_WIDTH, RAIN_ROOM, RAIN_WIDTH};
use rule::rules::Rules;
use sheet::reading::{Heading, Sheet, read};

// The most rates that are kept.
pub const RATES_ROOM: usize = MOST_KEPT * MOST_HATCHES;

// Where a log has come to: whether a line is left, where it starts and its number; how many bytes are to be printed; what the sheet says; and the
// log's own value.
#[derive(Clone, Copy)]
pub struct Night {
    pub more: bool,
    pub at: usize,
    pub line: usize,
    pub length: usize,
    pub heading: Heading,
    pub log: Log,
}

// How much of each room is lent to a line.
#[derive(Clone, Copy)]
struct Sizes {
    squares: usize,
    rain: usize,
    inflow: usize,
    records: usize,
    began: usize,
}

// Writes 0 over a room.
pub fn clear(room: &mut [u32])
    ensures { Cleared room.old room.new }
{
    room.fill(0);
}

// Writes 0 over the rooms of a sheet.
fn clear_sheet(
    marks: &mut [u8; PROGRAM_SQUARES],
    beds: &mut [u32; PROGRAM_SQUARES],
    roughness: &mut [u32; PROGRAM_SQUARES],
    rates: &mut [u32; PROGRAM_SQUARES],
    rain: &mut [u32; RAIN_ROOM],
    inflow: &mut [u32; INFLOW_ROOM],
    depths: &mut [u32; PROGRAM_SQUARES],
)
    ensures { rooms marks.new beds.new roughness.new rates.new depths.new rain.new inflow.new ≡ program_rooms }
{
    marks.fill(0);
    clear(beds);
    clear(roughness);
    clear(rates);
    clear(rain);
    clear(inflow);
    clear(depths);
}

// The night before a log's first line.
fn first_night(heading: Heading, length: usize) -> Night
    requires { (ShapeInRange heading.shape) × (squares heading.shape ≤ program_squares) }
    ensures { result ≡ first_night heading length }
{
    let slots = kept_records(heading.shape);
    let run = fresh_run(heading.rules, slots);
    Night {
        more: 0 < length,
        at: 0,
        line: 1,
        length: 0,
        heading: heading,
        log: open_log(run),
    }
}

// A night of a refusal: nothing but the bytes to be printed.
pub fn no_night(length: usize) -> Night
    ensures { result ≡ no_night length }
{
    let shape = Shape {
        rows: 0,
        columns: 0,
    };
    let rules = Rules {
        square_side: 0,
        tolerance: 0,
        shortest: 0,
        longest: 0,
        update: 0,
        edge: 0,
        edition: 0,
    };
    let run = Run {
        clock: 0,
        length: 0,
        outflow: 0,
        kept: 0,
        newest: 0,
        soaked: 0,
    };
    let heading = Heading {
        shape: shape,
        rules: rules,
        end: 0,
        rain_rows: 0,
        inflow_rows: 0,
    };
    Night {
        more: false,
        at: 0,
        line: 0,
        length: length,
        heading: heading,
        log: open_log(run),
    }
}

// Reads a sheet and opens a log, whose rooms are cleared first; or a refusal, put at the start of out.
pub fn begin_log(
    sheet: &[u8],
    log: &[u8],
    marks: &mut [u8; PROGRAM_SQUARES],
    beds: &mut [u32; PROGRAM_SQUARES],
    roughness: &mut [u32; PROGRAM_SQUARES],
    rates: &mut [u32; PROGRAM_SQUARES],
    rain: &mut [u32; RAIN_ROOM],
    inflow: &mut [u32; INFLOW_ROOM],
    depths: &mut [u32; PROGRAM_SQUARES],
    lasts: &mut [u32; PROGRAM_SQUARES],
    records: &mut [u32; MOST_NUMBERS],
    began: &mut [u32; RATES_ROOM],
    out: &mut [u8; OUT_ROOM],
) -> Night
    ensures { Begins sheet.now log.now result (stores (rooms marks.new beds.new roughness.new rates.new depths.new rain.new inflow.new) lasts.new records.new began.new) out.old out.new }
{
    clear_sheet(marks, beds, roughness, rates, rain, inflow, depths);
    clear(lasts);
    clear(records);
    clear(began);
    if MOST_TEXT < sheet.len() {
        return no_night(put_refused(out, 0, 12, 0));
    }
    if MOST_TEXT < log.len() {
        return no_night(put_refused(out, 0, 12, 0));
    }
    match read(sheet, marks, beds, roughness, rates, depths, rain, inflow) {
        Sheet::Refused(number, line) => no_night(put_refused(out, 0, number, line)),
        Sheet::Read(heading) => first_night(heading, log.len()),
    }
}

// Whether a line is left.
fn is_left(night: Night, length: usize) -> bool
    ensures { result ≡ every (night.more ∷ ltb night.at length ∷ []) }
{
    if !night.more {
        return false;
    }
    night.at < length
}

// Whether the sizes that a night tells are those of the program's rooms.
fn night_fine(night: Night) -> bool
    requires { night.at + 1 < 18_446_744_073_709_551_616 }
    ensures { result ≡ night_fine night }
{
    let heading = night.heading;
    if !shape_fine(heading.shape) {
        return false;
    }
    if PROGRAM_SQUARES < squares_of(heading.shape) {
        return false;
    }
    if MOST_TABLE_ROWS < heading.rain_rows {
        return false;
    }
    if MOST_TABLE_ROWS < heading.inflow_rows {
        return false;
    }
    night.line <= night.at + 1
}

// How much of each room is lent to a line.
fn sizes_of(night: Night) -> Sizes
    requires { night_fine night ≡ true }
    ensures { SizesAre night.heading result }
{
    let heading = night.heading;
    let slots = kept_records(heading.shape);
    Sizes {
        squares: squares_of(heading.shape),
        rain: RAIN_WIDTH * heading.rain_rows,
        inflow: INFLOW_WIDTH * heading.inflow_rows,
        records: slots * record_size(heading.shape),
        began: slots * MOST_HATCHES,
    }
}

// Whether the rooms hold as much.
fn rooms_fit(
    sizes: Sizes,
    marks: &[u8],
    beds: &[u32],
    roughness: &[u32],
    rates: &[u32],
    rain: &[u32],
    inflow: &[u32],
    depths: &[u32],
    lasts: &[u32],
    records: &[u32],
    began: &[u32],
) -> bool
    ensures { result ≡ sizes_fit sizes (stores (rooms marks.now beds.now roughness.now rates.now depths.now rain.now inflow.now) lasts.now records.now began.now) }
{
    if marks.len() < sizes.squares {
        return false;
    }
    if beds.len() < sizes.squares {
        return false;
    }
    if roughness.len() < sizes.squares {
        return false;
    }
    if rates.len() < sizes.squares {
        return false;
    }
    if rain.len() < sizes.rain {
        return false;
    }
    if inflow.len() < sizes.inflow {
        return false;
    }
    if depths.len() < sizes.squares {
        return false;
    }
    if lasts.len() < sizes.squares {
        return false;
    }
    if records.len() < sizes.records {
        return false;
    }
    sizes.began <= began.len()
}

// Whether a night and the rooms go together.
fn fits(
    night: Night,
    marks: &[u8],
    beds: &[u32],
    roughness: &[u32],
    rates: &[u32],
    rain: &[u32],
    inflow: &[u32],
    depths: &[u32],
    lasts: &[u32],
    records: &[u32],
    began: &[u32],
) -> bool
    requires { night.at + 1 < 18_446_744_073_709_551_616 }
    ensures { result ≡ night_fits night (stores (rooms marks.now beds.now roughness.now rates.now depths.now rain.now inflow.now) lasts.now records.now began.now) }
{
    if !night_fine(night) {
        return false;
    }
    let sizes = sizes_of(night);
    rooms_fit(
        sizes, marks, beds, roughness, rates, rain, inflow, depths, lasts, records, began,
    )
}

// A night of which no line is left.
fn over(night: Night, length: usize) -> Night
    ensures { result ≡ night_over night length }
{
    let heading = night.heading;
    let log = night.log;
    Night {
        more: false,
        at: night.at,
        line: night.line,
        length: length,
        heading: heading,
        log: log,
    }
}

// The night after a line.
fn next_night(night: Night, taken: LineTaken, length: usize) -> Night
    requires { night.line + 1 < 18_446_744_073_709_551_616 }
    ensures { result ≡ night_with night taken length }
{
    let heading = night.heading;
    let log = taken.log;
    Night {
        more: goes_on(taken, length),
        at: taken.next,
        line: night.line + 1,
        length: taken.length,
        heading: heading,
        log: log,
    }
}

// Whether a line was not refused and another one follows.
fn goes_on(taken: LineTaken, length: usize) -> bool
    ensures { result ≡ every (eqb taken.number 0 ∷ ltb taken.next length ∷ []) }
{
    if taken.number != 0 {
        return false;
    }
    taken.next < length
}

// Takes the line that is left: each room is lent as far as its size.
fn take_held(
    night: Night,
    text: &[u8],
    marks: &[u8],
    beds: &[u32],
    roughness: &[u32],
    rates: &[u32],
    rain: &[u32],
    inflow: &[u32],
    depths: &mut [u32],
    lasts: &mut [u32],
    records: &mut [u32],
    began: &mut [u32],
    out: &mut [u8; OUT_ROOM],
) -> Night
    requires { (is_left text.now night ≡ true) × (night_fits night (stores (rooms marks.now beds.now roughness.now rates.now depths.old rain.now inflow.now) lasts.old records.old began.old) ≡ true) }
    ensures { GoesOn text.now night (stores (rooms marks.now beds.now roughness.now rates.now depths.old rain.now inflow.now) lasts.old records.old began.old) result depths.new lasts.new records.new began.new out.old out.new }
{
    let sizes = sizes_of(night);
    let squares = sizes.squares;
    let rain_end = sizes.rain;
    let inflow_end = sizes.inflow;
    let records_end = sizes.records;
    let began_end = sizes.began;
    let heading = night.heading;
    let taken = take_line(
        text,
        night.at,
        night.line,
        night.log,
        heading.shape,
        heading.rules,
        &marks[..squares],
        &beds[..squares],
        &roughness[..squares],
        &rates[..squares],
        &rain[..rain_end],
        &inflow[..inflow_end],
        &mut depths[..squares],
        &mut lasts[..squares],
        &mut records[..records_end],
        &mut began[..began_end],
        out,
    );
    next_night(night, taken, text.len())
}

// Takes the next line of a log: what is printed of it, at the start of out, and where the log has come to.
pub fn go_on(
    night: Night,
    text: &[u8],
    marks: &[u8],
    beds: &[u32],
    roughness: &[u32],
    rates: &[u32],
    rain: &[u32],
    inflow: &[u32],
    depths: &mut [u32],
    lasts: &mut [u32],
    records: &mut [u32],
    began: &mut [u32],
    out: &mut [u8; OUT_ROOM],
) -> Night
    ensures { GoesOn text.now night (stores (rooms marks.now beds.now roughness.now rates.now depths.old rain.now inflow.now) lasts.old records.old began.old) result depths.new lasts.new records.new began.new out.old out.new }
{
    if !is_left(night, text.len()) {
        return over(night, 0);
    }
    if !fits(
        night, marks, beds, roughness, rates, rain, inflow, depths, lasts, records, began,
    ) {
        return over(night, put_refused(out, 0, 1, 0));
    }
    take_held(
        night, text, marks, beds, roughness, rates, rain, inflow, depths, lasts, records, began,
        out,
    )
}
