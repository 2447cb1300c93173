// What `hours_wet` prints of a text: the whole program short of its input and output.
ghost use Rattle.programs.specs.Program.{Prints};
ghost use Rattle.hours.specs.Hours.{hours_run_text, hours_text};

use crate::running::run_sheet_wet;
use grid::squares::squares_of;
use programs::limits::{OUT_ROOM, PROGRAM_SQUARES};
use programs::printer::{Printer, printed_of};
use programs::printing::put_ran;
use sheet::reading::Heading;

// The run, and for how long each square was wet in it.
struct Hours;

impl Printer for Hours {
    ghost printed = { λ it. hours_run_text };

    fn print(
        &self,
        out: &mut [u8],
        heading: Heading,
        marks: &[u8],
        beds: &[u32],
        roughness: &[u32],
        rates: &[u32],
        rain: &[u32],
        inflow: &[u32],
        depths: &mut [u32],
        lasts: &mut [u32],
        records: &mut [u32],
    ) -> usize {
        let mut times = [0u32; PROGRAM_SQUARES];
        let squares = squares_of(heading.shape);
        let ran = run_sheet_wet(
            heading,
            marks,
            beds,
            roughness,
            rates,
            rain,
            inflow,
            depths,
            lasts,
            records,
            &mut times[..squares],
        );
        put_ran(out, 0, heading.shape, marks, &times[..squares], ran)
    }
}

// What is printed of a text, at the start of out; the answer is its length.
pub fn hours_of(text: &[u8], out: &mut [u8; OUT_ROOM]) -> usize
    ensures { Prints (hours_text text.now) out.old out.new result }
{
    printed_of(&Hours, text, out)
}
