// A state's frame, and how an answer ends.
ghost use Rattle.std.specs.Prelude.{◌≡◌, ◌+◌, ◌≤◌, length};
ghost use Rattle.ledger.specs.Runs.{plan};
ghost use Rattle.frames.specs.Frame.{frame_text};
ghost use Rattle.desks.specs.Lines.{figures_of, state_text};
ghost use Rattle.desks.specs.Inner.Lent.{EndingPut, Shows, StatePut, most_ending};

use crate::state::kept_slots;
use account::water_on;
use answer::printing::put_refused;
use frames::frame::{Figures, put_frame};
use grid::squares::Shape;
use hatches::log::Log;
use text::writing::put_word;
use trying::given::Account;

// The figures of a state, of which so many steps can be kept, with so much water on the ground.
fn figures_of(log: Log, account: Account, slots: usize, ground: u64) -> Figures
    ensures { result ≡ figures_of log account slots ground }
{
    let run = log.run;
    Figures {
        steps: log.steps,
        clock: run.clock,
        length: run.length,
        outflow: run.outflow,
        soaked: run.soaked,
        kept: run.kept as u64,
        room: slots as u64,
        on_ground: ground,
        start: account.start,
        given: account.given,
    }
}

// A frame at the start of an answer's room: it always fits.
fn put_first(
    out: &mut [u8],
    figures: Figures,
    litres: [u32; 9],
    shape: Shape,
    marks: &[u8],
    depths: &[u32],
) -> usize
    requires { Shows (plan shape marks.now) depths.now out.old }
    ensures { StatePut (frame_text figures litres shape marks.now depths.now) out.old out.new result }
{
    put_frame(out, 0, figures, litres, shape, marks, depths)
}

// The frame of a state.
pub(crate) fn put_state(
    out: &mut [u8],
    log: Log,
    account: Account,
    shape: Shape,
    marks: &[u8],
    depths: &[u32],
) -> usize
    requires { Shows (plan shape marks.now) depths.now out.old }
    ensures { StatePut (state_text (plan shape marks.now) log account depths.now) out.old out.new result }
{
    let ground = water_on(shape, marks, depths);
    let figures = figures_of(log, account, kept_slots(shape), ground);
    let litres = log.litres;
    put_first(out, figures, litres, shape, marks, depths)
}

// How an answer ends: `done`, or its refusal.
pub(crate) fn put_ending(out: &mut [u8], at: usize, number: u32, line: usize) -> usize
    requires { at + most_ending ≤ length out.old }
    ensures { EndingPut number line at out.old out.new result }
{
    if number != 0 {
        return put_refused(out, at, number, line);
    }
    put_word(out, at, b"done\n")
}
