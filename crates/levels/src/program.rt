// What `boards` prints of a sheet's and a boards' text: the whole program short of its files.
ghost use Rattle.programs.specs.Program.{Prints};
ghost use Rattle.levels.specs.Program.{boards_text, level_text_of};

use crate::lines::read_boards;
use crate::printing::put_shown;
use answer::printing::put_refused;
use checks::fresh::fresh_run;
use display::watch::run_boards;
use programs::limits::{MOST_TEXT, OUT_ROOM};
use programs::printer::{Printer, printed_of};
use sheet::reading::Heading;

// The number of a text that cannot be read.
const BAD_TEXT: u32 = 12;

// The run with the boards of a text.
#[derive(Drop)]
struct Levels<'a> {
    boards: &'a [u8],
}

impl<'a> Printer for Levels<'a> {
    ghost printed = { λ it h held. level_text_of h held it.boards.now };

    fn print(
        &self,
        out: &mut [u8],
        heading: Heading,
        marks: &[u8],
        beds: &[u32],
        roughness: &[u32],
        rates: &[u32],
        rain: &[u32],
        inflow: &[u32],
        depths: &mut [u32],
        lasts: &mut [u32],
        records: &mut [u32],
    ) -> usize {
        let found = read_boards(self.boards);
        if found.bad != 0 {
            return put_refused(out, 0, BAD_TEXT, found.bad);
        }
        let run = fresh_run(heading.rules, 1);
        let shown = run_boards(
            found.boards,
            heading.shape,
            heading.rules,
            run,
            heading.end,
            marks,
            beds,
            roughness,
            rates,
            rain,
            inflow,
            depths,
            lasts,
            records,
        );
        put_shown(out, shown)
    }
}

// What is printed of a sheet's text and a boards' text, at the start of out; the answer is its length. A text that is too long is refused before
// any is read.
pub fn boards_of(sheet: &[u8], boards: &[u8], out: &mut [u8; OUT_ROOM]) -> usize
    ensures { Prints (boards_text sheet.now boards.now) out.old out.new result }
{
    if MOST_TEXT < boards.len() {
        return put_refused(out, 0, BAD_TEXT, 0);
    }
    printed_of(&Levels { boards: boards }, sheet, out)
}
