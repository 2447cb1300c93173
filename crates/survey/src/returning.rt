// A set moved back: judged in the order of its refusals, what it says put into rooms, and the sheet of that.
ghost use Rattle.std.specs.Prelude.{◌≡◌, [], ◌∷◌, ◌≤◌, length};
ghost use Rattle.reckon.specs.Tests.{every};
ghost use Rattle.reckon.specs.Ranges.{side_fine};
ghost use Rattle.grid.specs.Squares.{ShapeInRange, shape_fine};
ghost use Rattle.sheet.specs.Sheet.{heading_of, rooms};
ghost use Rattle.programs.specs.Inner.Held.{parts_of};
ghost use Rattle.survey.specs.Sets.{five_files, most_file};
ghost use Rattle.survey.specs.Moving.{Moves, MovesSet};
ghost use Rattle.survey.specs.Inner.Notes.{Judged, Lies, NoteIs, SetGood, judged_text, looked_heading, looked_says};

use crate::moving::{MOST_FILE, Moved};
use crate::notes::{Note, read_note};
use crate::sets::{
    LOOKED_ROWS, all_agree, all_short, fill_column, fill_marks, looked_heading, set_bad,
};
use crate::texts::put_sheet;
use grid::squares::{MOST_SQUARES, Shape, shape_fine, squares_of};
use raster::amounts::Scale;
use reckon::ranges::side_fine;
use reckon::tables::{INFLOW_WIDTH, RAIN_WIDTH};
use sheet::reading::{Heading, judge};
use sheet::rooms::fill_rows;

const RAIN_LOOKED: usize = RAIN_WIDTH * LOOKED_ROWS;

const INFLOW_LOOKED: usize = INFLOW_WIDTH * LOOKED_ROWS;

// 1 to 5, and then the sheet of what rooms hold at the start of a room.
fn put_judged(
    out: &mut [u8],
    heading: Heading,
    marks: &[u8],
    beds: &[u32],
    roughness: &[u32],
    rates: &[u32],
    depths: &[u32],
    rain: &[u32],
    inflow: &[u32],
) -> Moved
    requires shape_in_range { (ShapeInRange heading.shape) × (most_file ≤ length out.old) }
    requires judged { Judged heading (rooms marks.now beds.now roughness.now rates.now depths.now rain.now inflow.now) }
    ensures { Moves (judged_text heading (rooms marks.now beds.now roughness.now rates.now depths.now rain.now inflow.now)) out.old result out.new }
{
    let number = judge(
        heading.shape,
        heading.rules,
        heading.end,
        marks,
        beds,
        roughness,
        rates,
        depths,
        rain,
        inflow,
    );
    if number != 0 {
        return Moved::Refused(number, 0);
    }
    Moved::Wrote(put_sheet(
        out, heading, marks, beds, roughness, rates, depths, rain, inflow,
    ))
}

// The same of the parts of rooms that belong to a heading. `put_read` cuts them so too: eight slices handed through a closure are no plainer.
fn put_lying(
    out: &mut [u8],
    heading: Heading,
    marks: &[u8],
    beds: &[u32],
    roughness: &[u32],
    rates: &[u32],
    depths: &[u32],
    rain: &[u32],
    inflow: &[u32],
) -> Moved
    requires lies { Lies heading (rooms marks.now beds.now roughness.now rates.now depths.now rain.now inflow.now) }
    requires most_file_in_bounds { most_file ≤ length out.old }
    ensures { Moves (judged_text heading (parts_of heading (rooms marks.now beds.now roughness.now rates.now depths.now rain.now inflow.now))) out.old result out.new }
{
    let squares = squares_of(heading.shape);
    let rain_end = RAIN_WIDTH * heading.rain_rows;
    let inflow_end = INFLOW_WIDTH * heading.inflow_rows;
    put_judged(
        out,
        heading,
        &marks[..squares],
        &beds[..squares],
        &roughness[..squares],
        &rates[..squares],
        &depths[..squares],
        &rain[..rain_end],
        &inflow[..inflow_end],
    )
}

// What a set that agrees says, judged and written.
fn put_set(
    note: &[u8],
    read: Note,
    bed: &[u8],
    depth: &[u8],
    roughness: &[u8],
    rate: &[u8],
    out: &mut [u8],
) -> Moved
    requires note_is { (NoteIs note.now read) × (SetGood (five_files note.now bed.now depth.now roughness.now rate.now)) }
    requires most_file_in_bounds { most_file ≤ length out.old }
    ensures { Moves (judged_text (looked_heading (heading_of note.now)) (looked_says (five_files note.now bed.now depth.now roughness.now rate.now))) out.old result out.new }
{
    let heading = read.heading;
    let shape = heading.shape;
    let looked = looked_heading(heading);
    let mut marks = [0u8; MOST_SQUARES];
    let mut beds = [0u32; MOST_SQUARES];
    let mut rough = [0u32; MOST_SQUARES];
    let mut rates = [0u32; MOST_SQUARES];
    let mut depths = [0u32; MOST_SQUARES];
    let mut rain = [0u32; RAIN_LOOKED];
    let mut inflow = [0u32; INFLOW_LOOKED];
    fill_marks(note, read.cells_at, shape, &mut marks);
    fill_column(bed, Scale::Metres, shape, &mut beds);
    fill_column(roughness, Scale::Whole, shape, &mut rough);
    fill_column(rate, Scale::Whole, shape, &mut rates);
    fill_column(depth, Scale::Metres, shape, &mut depths);
    fill_rows(
        note,
        read.rain_at,
        b"rain",
        RAIN_WIDTH,
        looked.rain_rows,
        &mut rain,
    );
    fill_rows(
        note,
        read.inflow_at,
        b"inflow",
        INFLOW_WIDTH,
        looked.inflow_rows,
        &mut inflow,
    );
    put_lying(
        out, looked, &marks, &beds, &rough, &rates, &depths, &rain, &inflow,
    )
}

// The shape and D are in range: the rooms are large enough for every such shape.
fn shape_taken(shape: Shape, side: u64) -> bool
    ensures { result ≡ every (shape_fine shape ∷ side_fine side ∷ []) }
{
    if !shape_fine(shape) {
        return false;
    }
    side_fine(side)
}

// The sheet of a set at the start of a room, or a refusal that leaves the room as it was.
pub fn from_set(
    note: &[u8],
    bed: &[u8],
    depth: &[u8],
    roughness: &[u8],
    rate: &[u8],
    out: &mut [u8; MOST_FILE],
) -> Moved
    ensures { MovesSet (five_files note.now bed.now depth.now roughness.now rate.now) out.old result out.new }
{
    if !all_short(note, bed, depth, roughness, rate) {
        return Moved::Refused(12, 0);
    }
    let read = read_note(note);
    let line = set_bad(read.bad, bed, depth, roughness, rate);
    if line != 0 {
        return Moved::Refused(12, line);
    }
    if !all_agree(note, read, bed, depth, roughness, rate) {
        return Moved::Refused(14, 0);
    }
    let heading = read.heading;
    let rules = heading.rules;
    if !shape_taken(heading.shape, rules.square_side) {
        return Moved::Refused(1, 0);
    }
    put_set(note, read, bed, depth, roughness, rate, out)
}
