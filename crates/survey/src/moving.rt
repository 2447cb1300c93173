// A sheet moved to a set, one part of it at a time.
ghost use Rattle.std.specs.Prelude.{◌≤◌, length};
ghost use Rattle.grid.specs.Squares.{most_squares};
ghost use Rattle.text.specs.Writing.{Wrote};
ghost use Rattle.sheet.specs.Sheet.{rooms};
ghost use Rattle.programs.specs.Inner.Held.{Holds, parts_of};
ghost use Rattle.survey.specs.Sets.{most_file, set_of};
ghost use Rattle.survey.specs.Moving.{MovesPart, part_of};
ghost use Rattle.survey.specs.Inner.Writing.{Writable};

use crate::texts::put_note;
use grid::squares::{MOST_SQUARES, squares_of};
use programs::reading::read_within;
use raster::amounts::Scale;
use raster::writing::put_grid;
use reckon::tables::{INFLOW_ROOM, INFLOW_WIDTH, RAIN_ROOM, RAIN_WIDTH};
use sheet::reading::{Heading, Sheet};

// A file of a set.
#[derive(Clone, Copy)]
pub enum Part {
    Note,
    Bed,
    Depth,
    Roughness,
    Rate,
}

// How long the text is that was written, or a refusal's number and line (0 unless the number is 12).
#[derive(Clone, Copy)]
pub enum Moved {
    Wrote(usize),
    Refused(u32, usize),
}

// The most bytes of a file: enough for every sheet, note and grid that is written.
pub const MOST_FILE: usize = 262_144;

// A part of the set of what rooms hold.
fn put_part(
    out: &mut [u8],
    part: Part,
    heading: Heading,
    marks: &[u8],
    beds: &[u32],
    roughness: &[u32],
    rates: &[u32],
    depths: &[u32],
    rain: &[u32],
    inflow: &[u32],
) -> usize
    requires writable { Writable heading (rooms marks.now beds.now roughness.now rates.now depths.now rain.now inflow.now) }
    requires most_file_in_bounds { most_file ≤ length out.old }
    ensures { Wrote (part_of part (set_of heading (rooms marks.now beds.now roughness.now rates.now depths.now rain.now inflow.now))) 0 out.old out.new result }
{
    let shape = heading.shape;
    let rules = heading.rules;
    let side = rules.square_side;
    match part {
        Part::Note => put_note(out, heading, marks, rain, inflow),
        Part::Bed => put_grid(out, 0, shape, side, marks, beds, Scale::Metres),
        Part::Depth => put_grid(out, 0, shape, side, marks, depths, Scale::Metres),
        Part::Roughness => put_grid(out, 0, shape, side, marks, roughness, Scale::Whole),
        Part::Rate => put_grid(out, 0, shape, side, marks, rates, Scale::Whole),
    }
}

// The same of the parts of rooms that belong to a sheet which was read into them.
fn put_read(
    out: &mut [u8],
    part: Part,
    heading: Heading,
    marks: &[u8],
    beds: &[u32],
    roughness: &[u32],
    rates: &[u32],
    depths: &[u32],
    rain: &[u32],
    inflow: &[u32],
) -> usize
    requires holds { (Holds most_squares heading (rooms marks.now beds.now roughness.now rates.now depths.now rain.now inflow.now)) × (Writable heading (parts_of heading (rooms marks.now beds.now roughness.now rates.now depths.now rain.now inflow.now))) }
    requires most_file_in_bounds { most_file ≤ length out.old }
    ensures { Wrote (part_of part (set_of heading (parts_of heading (rooms marks.now beds.now roughness.now rates.now depths.now rain.now inflow.now)))) 0 out.old out.new result }
{
    let squares = squares_of(heading.shape);
    let rain_end = RAIN_WIDTH * heading.rain_rows;
    let inflow_end = INFLOW_WIDTH * heading.inflow_rows;
    put_part(
        out,
        part,
        heading,
        &marks[..squares],
        &beds[..squares],
        &roughness[..squares],
        &rates[..squares],
        &depths[..squares],
        &rain[..rain_end],
        &inflow[..inflow_end],
    )
}

// A part of a sheet's set at the start of a room, or a refusal that leaves the room as it was.
// No `Printer`: it runs nothing, its rooms hold the most squares of all, and a refusal is not printed.
pub fn to_part(text: &[u8], part: Part, out: &mut [u8; MOST_FILE]) -> Moved
    ensures { MovesPart text.now part out.old result out.new }
{
    let mut marks = [0u8; MOST_SQUARES];
    let mut beds = [0u32; MOST_SQUARES];
    let mut roughness = [0u32; MOST_SQUARES];
    let mut rates = [0u32; MOST_SQUARES];
    let mut depths = [0u32; MOST_SQUARES];
    let mut rain = [0u32; RAIN_ROOM];
    let mut inflow = [0u32; INFLOW_ROOM];
    let sheet = read_within(
        text,
        MOST_FILE,
        &mut marks,
        &mut beds,
        &mut roughness,
        &mut rates,
        &mut depths,
        &mut rain,
        &mut inflow,
    );
    match sheet {
        Sheet::Refused(number, line) => Moved::Refused(number, line),
        Sheet::Read(heading) => Moved::Wrote(put_read(
            out, part, heading, &marks, &beds, &roughness, &rates, &depths, &rain, &inflow,
        )),
    }
}
