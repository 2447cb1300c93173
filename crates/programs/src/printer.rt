// What a program prints of a text: the reader's refusal, or what its printer makes of the sheet that was read.
ghost use Rattle.std.specs.Prelude.{◌≤◌, List, ℕ, length};
ghost use Rattle.sheet.specs.Sheet.{Rooms, rooms};
ghost use Rattle.sheet.specs.declared.reading.Heading.{Heading};
ghost use Rattle.programs.specs.Program.{Prints, most_printed, program_squares, text_printed};
ghost use Rattle.programs.specs.Inner.Held.{Begins, Holds, parts_of};

use crate::limits::{MOST_TEXT, OUT_ROOM, PROGRAM_SQUARES, RECORD_ROOM};
use crate::reading::read_within;
use answer::printing::put_refused;
use grid::squares::squares_of;
use ledger::record::record_size;
use reckon::tables::{INFLOW_ROOM, INFLOW_WIDTH, RAIN_ROOM, RAIN_WIDTH};
use sheet::reading::{Heading, Sheet};

// What tells one program from another: how it runs a sheet, and what it prints of that.
pub trait Printer {
    // By the sheet's heading and what its parts of the rooms hold.
    ghost printed: { Self → Heading → Rooms → List ℕ };

    // Lent are the parts of the rooms that belong to a sheet that was read well, no last leaving, and a room for one record.
    fn print(
        &self,
        out: &mut [u8],
        heading: Heading,
        marks: &[u8],
        beds: &[u32],
        roughness: &[u32],
        rates: &[u32],
        rain: &[u32],
        inflow: &[u32],
        depths: &mut [u32],
        lasts: &mut [u32],
        records: &mut [u32],
    ) -> usize
        requires { (Begins program_squares heading (rooms marks.now beds.now roughness.now rates.now depths.old rain.now inflow.now) lasts.old records.old) × (most_printed ≤ length out.old) }
        ensures { Prints (printed self.now heading (rooms marks.now beds.now roughness.now rates.now depths.old rain.now inflow.now)) out.old out.new result };
}

// What is printed of a sheet that was read into the rooms.
fn print_sheet<P: Printer>(
    printer: &P,
    out: &mut [u8],
    heading: Heading,
    marks: &[u8],
    beds: &[u32],
    roughness: &[u32],
    rates: &[u32],
    rain: &[u32],
    inflow: &[u32],
    depths: &mut [u32],
) -> usize
    requires { (Holds program_squares heading (rooms marks.now beds.now roughness.now rates.now depths.old rain.now inflow.now)) × (most_printed ≤ length out.old) }
    ensures { Prints (P.printed printer.now heading (parts_of heading (rooms marks.now beds.now roughness.now rates.now depths.old rain.now inflow.now))) out.old out.new result }
{
    let mut lasts = [0u32; PROGRAM_SQUARES];
    let mut records = [0u32; RECORD_ROOM];
    let squares = squares_of(heading.shape);
    let size = record_size(heading.shape);
    let rain_end = RAIN_WIDTH * heading.rain_rows;
    let inflow_end = INFLOW_WIDTH * heading.inflow_rows;
    printer.print(
        out,
        heading,
        &marks[..squares],
        &beds[..squares],
        &roughness[..squares],
        &rates[..squares],
        &rain[..rain_end],
        &inflow[..inflow_end],
        &mut depths[..squares],
        &mut lasts[..squares],
        &mut records[..size],
    )
}

// What is printed of a text, at the start of out; the answer is its length.
pub fn printed_of<P: Printer>(printer: &P, text: &[u8], out: &mut [u8; OUT_ROOM]) -> usize
    ensures { Prints (text_printed (P.printed printer.now) text.now) out.old out.new result }
{
    let mut marks = [0u8; PROGRAM_SQUARES];
    let mut beds = [0u32; PROGRAM_SQUARES];
    let mut roughness = [0u32; PROGRAM_SQUARES];
    let mut rates = [0u32; PROGRAM_SQUARES];
    let mut depths = [0u32; PROGRAM_SQUARES];
    let mut rain = [0u32; RAIN_ROOM];
    let mut inflow = [0u32; INFLOW_ROOM];
    let sheet = read_within(
        text,
        MOST_TEXT,
        &mut marks,
        &mut beds,
        &mut roughness,
        &mut rates,
        &mut depths,
        &mut rain,
        &mut inflow,
    );
    match sheet {
        Sheet::Refused(number, line) => put_refused(out, 0, number, line),
        Sheet::Read(heading) => print_sheet(
            printer,
            out,
            heading,
            &marks,
            &beds,
            &roughness,
            &rates,
            &rain,
            &inflow,
            &mut depths,
        ),
    }
}
