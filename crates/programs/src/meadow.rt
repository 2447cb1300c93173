// What `meadow` prints of a text: the whole program short of its input and output.
ghost use Rattle.programs.specs.Program.{Prints, meadow_text, run_text};

use crate::limits::OUT_ROOM;
use crate::printer::{Printer, printed_of};
use crate::printing::put_ran;
use crate::running::run_sheet;
use sheet::reading::Heading;

// The run, and the depths that it leaves.
struct Meadow;

impl Printer for Meadow {
    ghost printed = { λ it. run_text };

    fn print(
        &self,
        out: &mut [u8],
        heading: Heading,
        marks: &[u8],
        beds: &[u32],
        roughness: &[u32],
        rates: &[u32],
        rain: &[u32],
        inflow: &[u32],
        depths: &mut [u32],
        lasts: &mut [u32],
        records: &mut [u32],
    ) -> usize {
        let ran = run_sheet(
            heading, marks, beds, roughness, rates, rain, inflow, depths, lasts, records,
        );
        put_ran(out, 0, heading.shape, marks, depths, ran)
    }
}

// What is printed of a text, at the start of out; the answer is its length.
pub fn meadow_of(text: &[u8], out: &mut [u8; OUT_ROOM]) -> usize
    ensures { Prints (meadow_text text.now) out.old out.new result }
{
    printed_of(&Meadow, text, out)
}
