// What `meadow` prints of a text, with what it tells on the way: the whole program short of its input and its answer's way out.
ghost use Rattle.programs.specs.Program.{Prints, meadow_text, run_text};

use crate::running::run_slices;
use programs::limits::OUT_ROOM;
use programs::printer::{Printer, printed_of};
use programs::printing::put_ran;
use sheet::reading::Heading;

// `meadow`'s printer, which tells how far the run has come.
#[derive(Drop)]
struct Telling<'a, R> {
    rt: &'a R,
}

impl<'a, R: Eprint> Printer for Telling<'a, R> {
    ghost printed = { λ it. run_text };

    fn print(
        &self,
        out: &mut [u8],
        heading: Heading,
        marks: &[u8],
        beds: &[u32],
        roughness: &[u32],
        rates: &[u32],
        rain: &[u32],
        inflow: &[u32],
        depths: &mut [u32],
        lasts: &mut [u32],
        records: &mut [u32],
    ) -> usize {
        let ran = run_slices(
            self.rt, heading, marks, beds, roughness, rates, rain, inflow, depths, lasts, records,
        );
        put_ran(out, 0, heading.shape, marks, depths, ran)
    }
}

// What is printed of a text, at the start of out; the answer is its length. It is `meadow_of`'s.
pub fn meadow_told(rt: &impl Eprint, text: &[u8], out: &mut [u8; OUT_ROOM]) -> usize
    ensures { Prints (meadow_text text.now) out.old out.new result }
{
    printed_of(&Telling { rt: rt }, text, out)
}
