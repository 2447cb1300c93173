// Reading a sheet: the text and the checks decide with nothing lent written, and then the rooms are filled.
ghost use Rattle.std.specs.Prelude.{◌≡◌, true, [], ◌∷◌, ◌*◌, ◌+◌, ◌≤◌, leb, length};
ghost use Rattle.reckon.specs.Tests.{every};
ghost use Rattle.reckon.specs.Ranges.{side_fine};
ghost use Rattle.reckon.specs.Tables.{inflow_kind, rain_kind, table_room};
ghost use Rattle.grid.specs.Squares.{ShapeInRange, shape_fine, squares};
ghost use Rattle.sheet.specs.Lines.{grid_line};
ghost use Rattle.sheet.specs.Sheet.{Reads, cells_rooms, checks_in, checks_of, rooms, said, shape_of};
ghost use Rattle.sheet.specs.Inner.Reading.{BodyIs, Decided, TextRead};

use crate::lines::{GridLine, grid_line, run_line};
use crate::rooms::{count_rows, fill_cells, fill_rows};
use checks::fresh::fresh_run;
use checks::refusals::check;
use grid::squares::{MOST_SQUARES, Shape, shape_fine, squares_of};
use ledger::record::record_size;
use reckon::ranges::{MOST_TABLE_ROWS, side_fine};
use reckon::tables::{INFLOW_ROOM, INFLOW_WIDTH, RAIN_ROOM, RAIN_WIDTH};
use rule::rules::Rules;

// What a sheet's first two lines say, and how many rows its tables have. The end is in ms.
#[derive(Clone, Copy)]
pub struct Heading {
    pub shape: Shape,
    pub rules: Rules,
    pub end: u64,
    pub rain_rows: usize,
    pub inflow_rows: usize,
}

// A sheet that was read, or a refusal's number and line (0 unless the number is 12).
#[derive(Clone, Copy)]
pub enum Sheet {
    Read(Heading),
    Refused(u32, usize),
}

// One row too many is enough to refuse a table.
const LOOKED_ROWS: usize = MOST_TABLE_ROWS + 1;

const RAIN_LOOKED: usize = RAIN_WIDTH * LOOKED_ROWS;

const INFLOW_LOOKED: usize = INFLOW_WIDTH * LOOKED_ROWS;

// The line of the first square, from 1.
const FIRST_CELL_LINE: usize = 3;

// What the text after line 1 says: the number of the first line that cannot be read, 0 for none; rules and end; where the cell lines and
// the tables start, and how many rows they have.
#[derive(Clone, Copy)]
pub(crate) struct Body {
    pub(crate) bad: usize,
    pub(crate) rules: Rules,
    pub(crate) end: u64,
    pub(crate) cells_at: usize,
    pub(crate) rain_at: usize,
    pub(crate) rain_rows: usize,
    pub(crate) inflow_at: usize,
    pub(crate) inflow_rows: usize,
}

// The lengths of the lent rooms.
#[derive(Clone, Copy)]
pub(crate) struct Sizes {
    pub(crate) marks: usize,
    pub(crate) beds: usize,
    pub(crate) roughness: usize,
    pub(crate) rates: usize,
    pub(crate) depths: usize,
    pub(crate) rain: usize,
    pub(crate) inflow: usize,
}

// Refusal 1: shape and D are in range, and every room is large enough.
fn rooms_fine(shape: Shape, side: u64, lent: Sizes) -> bool
    ensures { result ≡ every (shape_fine shape ∷ side_fine side ∷ leb (squares shape) lent.marks ∷ leb (squares shape) lent.beds ∷ leb (squares shape) lent.roughness ∷ leb (squares shape) lent.rates ∷ leb (squares shape) lent.depths ∷ leb (table_room rain_kind) lent.rain ∷ leb (table_room inflow_kind) lent.inflow ∷ []) }
{
    if !shape_fine(shape) {
        return false;
    }
    if !side_fine(side) {
        return false;
    }
    let squares = squares_of(shape);
    if lent.marks < squares {
        return false;
    }
    if lent.beds < squares {
        return false;
    }
    if lent.roughness < squares {
        return false;
    }
    if lent.rates < squares {
        return false;
    }
    if lent.depths < squares {
        return false;
    }
    if lent.rain < RAIN_ROOM {
        return false;
    }
    INFLOW_ROOM <= lent.inflow
}

// A text whose line of this number cannot be read.
fn bad_body(line: usize) -> Body
    ensures { result.bad ≡ line }
{
    Body {
        bad: line,
        rules: Rules {
            square_side: 0,
            tolerance: 0,
            shortest: 0,
            longest: 0,
            update: 0,
            edge: 0,
            edition: 0,
        },
        end: 0,
        cells_at: 0,
        rain_at: 0,
        rain_rows: 0,
        inflow_at: 0,
        inflow_rows: 0,
    }
}

// All text after line 1, its squares into rooms.
fn read_body(
    text: &[u8],
    top: GridLine,
    marks: &mut [u8],
    beds: &mut [u32],
    roughness: &mut [u32],
    rates: &mut [u32],
    depths: &mut [u32],
) -> Body
    requires top_value { (Some top ≡ grid_line text.now) × (ShapeInRange top.shape) }
    requires shape_in_bounds { (squares top.shape ≤ length marks.old) × (squares top.shape ≤ length beds.old) × (squares top.shape ≤ length roughness.old) × (squares top.shape ≤ length rates.old) × (squares top.shape ≤ length depths.old) }
    ensures { TextRead text.now result (cells_rooms marks.old beds.old roughness.old rates.old depths.old) (cells_rooms marks.new beds.new roughness.new rates.new depths.new) }
{
    let Some(run) = run_line(text, top.next, top.side) else {
        return bad_body(2);
    };
    let shape = top.shape;
    let squares = squares_of(shape);
    let cells = fill_cells(text, run.next, shape, marks, beds, roughness, rates, depths);
    if cells.count < squares {
        return bad_body(cells.count + FIRST_CELL_LINE);
    }
    let rain = count_rows(text, cells.next, b"rain", RAIN_WIDTH);
    let inflow = count_rows(text, rain.next, b"inflow", INFLOW_WIDTH);
    if inflow.next < text.len() {
        return bad_body(squares + rain.count + inflow.count + FIRST_CELL_LINE);
    }
    Body {
        bad: 0,
        rules: run.rules,
        end: run.end,
        cells_at: run.next,
        rain_at: cells.next,
        rain_rows: rain.count,
        inflow_at: rain.next,
        inflow_rows: inflow.count,
    }
}

// The first of 1 to 6 that applies to a run to the end from a fresh run, 0 for none.
pub fn judge(
    shape: Shape,
    rules: Rules,
    end: u64,
    marks: &[u8],
    beds: &[u32],
    roughness: &[u32],
    rates: &[u32],
    depths: &[u32],
    rain: &[u32],
    inflow: &[u32],
) -> u32
    requires { ShapeInRange shape }
    ensures { result ≡ checks_in shape rules (rooms marks.now beds.now roughness.now rates.now depths.now rain.now inflow.now) end }
{
    let lasts = [0u32; MOST_SQUARES];
    let squares = squares_of(shape);
    let run = fresh_run(rules, 1);
    check(
        shape,
        rules,
        run,
        end,
        marks,
        beds,
        roughness,
        rates,
        rain,
        inflow,
        depths,
        &lasts[..squares],
        record_size(shape),
    )
}

// The same of a text that was read, its squares being in rooms.
fn judge_body(
    text: &[u8],
    shape: Shape,
    body: Body,
    marks: &[u8],
    beds: &[u32],
    roughness: &[u32],
    rates: &[u32],
    depths: &[u32],
) -> u32
    requires shape_in_range { (ShapeInRange shape) × (shape ≡ shape_of text.now) × (BodyIs text.now body) }
    requires depths_value { cells_rooms marks.now beds.now roughness.now rates.now depths.now ≡ (said text.now).cells }
    ensures { result ≡ checks_of text.now }
{
    let mut rain = [0u32; RAIN_LOOKED];
    let mut inflow = [0u32; INFLOW_LOOKED];
    let rain_rows = body.rain_rows.min(LOOKED_ROWS);
    let inflow_rows = body.inflow_rows.min(LOOKED_ROWS);
    fill_rows(
        text,
        body.rain_at,
        b"rain",
        RAIN_WIDTH,
        rain_rows,
        &mut rain,
    );
    fill_rows(
        text,
        body.inflow_at,
        b"inflow",
        INFLOW_WIDTH,
        inflow_rows,
        &mut inflow,
    );
    let rain_end = RAIN_WIDTH * rain_rows;
    let inflow_end = INFLOW_WIDTH * inflow_rows;
    judge(
        shape,
        body.rules,
        body.end,
        marks,
        beds,
        roughness,
        rates,
        depths,
        &rain[..rain_end],
        &inflow[..inflow_end],
    )
}

// The number and the line of a refusal, 0 for none, and what the text after line 1 says.
#[derive(Clone, Copy)]
pub(crate) struct Verdict {
    pub(crate) number: u32,
    pub(crate) line: usize,
    pub(crate) body: Body,
}

// Whether a text whose line 1 and rooms are good is refused: all other text, and then 2 to 5.
fn decide(text: &[u8], top: GridLine) -> Verdict
    requires { (Some top ≡ grid_line text.now) × (ShapeInRange top.shape) }
    ensures { Decided text.now result }
{
    let mut marks = [0u8; MOST_SQUARES];
    let mut beds = [0u32; MOST_SQUARES];
    let mut roughness = [0u32; MOST_SQUARES];
    let mut rates = [0u32; MOST_SQUARES];
    let mut depths = [0u32; MOST_SQUARES];
    let body = read_body(
        text,
        top,
        &mut marks,
        &mut beds,
        &mut roughness,
        &mut rates,
        &mut depths,
    );
    if body.bad != 0 {
        return Verdict {
            number: 12,
            line: body.bad,
            body: body,
        };
    }
    let shape = top.shape;
    let squares = squares_of(shape);
    let number = judge_body(
        text,
        shape,
        body,
        &marks[..squares],
        &beds[..squares],
        &roughness[..squares],
        &rates[..squares],
        &depths[..squares],
    );
    Verdict {
        number: number,
        line: 0,
        body: body,
    }
}

// Reads a sheet into rooms, or refuses it and leaves them as they were.
pub fn read(
    text: &[u8],
    marks: &mut [u8],
    beds: &mut [u32],
    roughness: &mut [u32],
    rates: &mut [u32],
    depths: &mut [u32],
    rain: &mut [u32],
    inflow: &mut [u32],
) -> Sheet
    ensures { Reads text.now (rooms marks.old beds.old roughness.old rates.old depths.old rain.old inflow.old) result (rooms marks.new beds.new roughness.new rates.new depths.new rain.new inflow.new) }
{
    let Some(top) = grid_line(text) else {
        return Sheet::Refused(12, 1);
    };
    let shape = top.shape;
    let lent = Sizes {
        marks: marks.len(),
        beds: beds.len(),
        roughness: roughness.len(),
        rates: rates.len(),
        depths: depths.len(),
        rain: rain.len(),
        inflow: inflow.len(),
    };
    if !rooms_fine(shape, top.side, lent) {
        return Sheet::Refused(1, 0);
    }
    let verdict = decide(text, top);
    if verdict.number != 0 {
        return Sheet::Refused(verdict.number, verdict.line);
    }
    let body = verdict.body;
    let rules = body.rules;
    fill_cells(
        text,
        body.cells_at,
        shape,
        marks,
        beds,
        roughness,
        rates,
        depths,
    );
    fill_rows(
        text,
        body.rain_at,
        b"rain",
        RAIN_WIDTH,
        body.rain_rows,
        rain,
    );
    fill_rows(
        text,
        body.inflow_at,
        b"inflow",
        INFLOW_WIDTH,
        body.inflow_rows,
        inflow,
    );
    Sheet::Read(Heading {
        shape: shape,
        rules: rules,
        end: body.end,
        rain_rows: body.rain_rows,
        inflow_rows: body.inflow_rows,
    })
}
