// The fresh run of a sheet to its end, in slices, and what is told between them.
ghost use Rattle.std.specs.Prelude.{◌≡◌, ◌<◌, ◌≤◌, length};
ghost use Rattle.text.specs.Writing.{Wrote};
ghost use Rattle.sheet.specs.Sheet.{checks_in, no_lasts, no_records, rooms};
ghost use Rattle.programs.specs.Program.{RunsSheet};
ghost use Rattle.slices.specs.Inner.Telling.{most_told, told_text};

use checks::fresh::fresh_run;
use flood::run::{Ran, run_to};
use grid::walks::Walk;
use sheet::reading::Heading;
use std::str;
use text::writing::put_line;

// A run has at most so many slices, each a whole number of update times: an end between them would be refused.
const MOST_SLICES: u64 = 100;

// Told is a run that has made so many steps more, so that of a short one nothing is.
const STEPS_APART: u64 = 1_000;

const TOLD_ROOM: usize = 64;

// The update times at the end of the slice that begins after so many of them.
fn slice_end(done: u64, updates: u64) -> u64
    requires { done < updates }
    ensures { (done < result) × (result ≤ updates) }
{
    let long = updates / MOST_SLICES + 1;
    if updates - done < long {
        return updates;
    }
    done + long
}

// The line that tells how far a run has come, at the start of a room.
fn put_told(out: &mut [u8], steps: u64, clock: u64) -> usize
    requires { most_told ≤ length out.old }
    ensures { (Wrote (told_text steps clock) 0 out.old out.new result) × (result ≤ most_told) }
{
    let values = [steps, clock];
    put_line(out, 0, b"reached", &values)
}

// Tells how far a run has come, if the time for it is there; the answer is how often it was by then.
fn tell_reached(rt: &impl Eprint, told: u64, steps: u64, clock: u64) -> u64 {
    let due = steps / STEPS_APART;
    if due <= told {
        return told;
    }
    let mut out = [0u8; TOLD_ROOM];
    let length = put_told(&mut out, steps, clock);
    if let Ok(line) = str::from_utf8(&out[..length]) {
        let _ = rt.eprint(line);
    }
    due
}

// Lent is what `run_sheet` is lent, and what it gives is `run_sheet`'s.
pub fn run_slices(
    rt: &impl Eprint,
    heading: Heading,
    marks: &[u8],
    beds: &[u32],
    roughness: &[u32],
    rates: &[u32],
    rain: &[u32],
    inflow: &[u32],
    depths: &mut [u32],
    lasts: &mut [u32],
    records: &mut [u32],
) -> Ran
    requires end_value { checks_in heading.shape heading.rules (rooms marks.now beds.now roughness.now rates.now depths.old rain.now inflow.now) heading.end ≡ 0 }
    requires lasts_value { (lasts.old ≡ no_lasts heading.shape heading.rules (rooms marks.now beds.now roughness.now rates.now depths.old rain.now inflow.now)) × (records.old ≡ no_records heading.shape heading.rules (rooms marks.now beds.now roughness.now rates.now depths.old rain.now inflow.now)) }
    ensures { RunsSheet heading (rooms marks.now beds.now roughness.now rates.now depths.old rain.now inflow.now) result depths.new lasts.new records.new }
{
    let rules = heading.rules;
    let mut at = fresh_run(rules, 1);
    let updates = heading.end / rules.update;
    let mut steps: u64 = 0;
    let mut told: u64 = 0;
    let mut done: u64 = 0;
    while done < updates {
        done = slice_end(done, updates);
        let clock = done * rules.update;
        let slice = run_to(
            Walk::Wet,
            heading.shape,
            rules,
            at,
            clock,
            marks,
            beds,
            roughness,
            rates,
            rain,
            inflow,
            depths,
            lasts,
            records,
        );
        let refused = slice.refused;
        at = slice.run;
        steps += slice.steps;
        if refused != 0 {
            return Ran {
                refused: refused,
                steps: steps,
                run: at,
            };
        }
        told = tell_reached(rt, told, steps, clock);
    }
    Ran {
        refused: 0,
        steps: steps,
        run: at,
    }
}
