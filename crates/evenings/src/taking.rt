// What a line of a log does.
ghost use Rattle.std.specs.Prelude.{◌≡◌, true, ◌≤◌, length};
ghost use Rattle.reckon.specs.Tests.{refusal};
ghost use Rattle.trials.specs.Ring.{slots_in};
ghost use Rattle.grid.specs.Squares.{ShapeInRange};
ghost use Rattle.ledger.specs.Runs.{plan, world};
ghost use Rattle.ledger.specs.Record.{room_slots};
ghost use Rattle.checks.specs.Given.{given, ground};
ghost use Rattle.flood.specs.Run.{ended};
ghost use Rattle.hatches.specs.Log.{entry_refusals, evening, hatch_named, kept_fine, log_with, most_hatches, standing_fine};
ghost use Rattle.evenings.specs.Taking.{TakesEntry, after_rate, back_from, line_run, rates_with};
ghost use Rattle.evenings.specs.Inner.Backs.{BackTaken, BacksOnce};
ghost use Rattle.hatches.specs.declared.lines.Entry.TheVariants as kinds;

use flood::run::{Ran, run_to};
use grid::squares::Shape;
use grid::walks::Walk;
use hatches::lines::Entry;
use hatches::log::Log;
use hatches::rates::{fill_table, keep_made, rates_back};
use hatches::refusals::entry_number;
use ledger::record::record_size;
use ledger::runs::{Answer, Run};
use ledger::take_back::take_back;
use reckon::tables::INFLOW_ROOM;
use rule::rules::Rules;

// The number that a line is refused with, 0 for none, and the log after it.
#[derive(Clone, Copy)]
pub struct EntryTaken {
    pub number: u32,
    pub log: Log,
}

// A log with a hatch named.
pub fn name_hatch(log: Log, number: u32, row: u32, column: u32) -> Log
    requires { (1 ≤ number) × (number ≤ most_hatches) }
    ensures { result ≡ hatch_named log number row column }
{
    let place = number as usize - 1;
    let mut hatches = log.hatches;
    hatches.named[place] = true;
    hatches.rows[place] = row;
    hatches.columns[place] = column;
    let run = log.run;
    let litres = log.litres;
    Log {
        run: run,
        steps: log.steps,
        opening: true,
        hatches: hatches,
        litres: litres,
    }
}

// A log with another run, steps standing and rates; the opening is over.
pub fn further(log: Log, run: Run, steps: u64, litres: [u32; 9]) -> Log
    ensures { result ≡ log_with log run steps litres }
{
    let hatches = log.hatches;
    Log {
        run: run,
        steps: steps,
        opening: false,
        hatches: hatches,
        litres: litres,
    }
}

// Rates with one written, where the line's steps were all made.
fn rates_with(litres: [u32; 9], number: u32, rate: u32, refused: u32) -> [u32; 9]
    requires { (1 ≤ number) × (number ≤ most_hatches) }
    ensures { result ≡ rates_with litres number rate refused }
{
    if refused != 0 {
        return litres;
    }
    let place = number as usize - 1;
    let mut next = litres;
    next[place] = rate;
    next
}

// A line's steps at the rates before it, and then its own rate.
fn run_line(
    log: Log,
    clock: u32,
    number: u32,
    rate: u32,
    shape: Shape,
    rules: Rules,
    marks: &[u8],
    beds: &[u32],
    roughness: &[u32],
    rates: &[u32],
    rain: &[u32],
    inflow: &[u32],
    depths: &mut [u32],
    lasts: &mut [u32],
    records: &mut [u32],
    began: &mut [u32],
) -> EntryTaken
    requires { refusal (entry_refusals (plan shape marks.now) (given (ground rules beds.now roughness.now rates.now) rain.now inflow.now) (evening depths.old lasts.old records.old began.old log) (kinds.Rate clock number rate)) ≡ 0 }
    ensures { (result.number ≡ (line_run (plan shape marks.now) (given (ground rules beds.now roughness.now rates.now) rain.now inflow.now) (evening depths.old lasts.old records.old began.old log) clock).number) × (evening depths.new lasts.new records.new began.new result.log ≡ after_rate (plan shape marks.now) (given (ground rules beds.now roughness.now rates.now) rain.now inflow.now) (evening depths.old lasts.old records.old began.old log) clock number rate) }
{
    let mut table = [0u32; INFLOW_ROOM];
    let litres = log.litres;
    let length = fill_table(inflow, log.hatches, litres, &mut table);
    let slots = trials::slots_in(record_size(shape), records.len());
    let before = log.run;
    let ran = run_to(
        Walk::Wet,
        shape,
        rules,
        before,
        clock as u64,
        marks,
        beds,
        roughness,
        rates,
        rain,
        &table[..length],
        depths,
        lasts,
        records,
    );
    let run = ran.run;
    let refused = ran.refused;
    keep_made(&litres, slots, before.newest, ran.steps, began);
    let written = rates_with(litres, number, rate, refused);
    EntryTaken {
        number: refused,
        log: further(log, run, log.steps + ran.steps, written),
    }
}

// One take-back: its number, 0 for none, and the run after it.
fn back_once(
    run: Run,
    shape: Shape,
    marks: &[u8],
    depths: &mut [u32],
    lasts: &mut [u32],
    records: &[u32],
) -> Ran
    ensures { BacksOnce (plan shape marks.now) (world depths.old lasts.old records.now run) result.refused (world depths.new lasts.new records.now result.run) }
{
    match take_back(shape, run, marks, depths, lasts, records) {
        Answer::Done(before) => Ran {
            refused: 0,
            steps: 1,
            run: before,
        },
        Answer::Refused(number) => Ran {
            refused: number,
            steps: 0,
            run: run,
        },
    }
}

// So many take-backs, up to one that is refused.
fn take_backs(
    run: Run,
    count: u32,
    shape: Shape,
    marks: &[u8],
    depths: &mut [u32],
    lasts: &mut [u32],
    records: &[u32],
) -> Ran
    ensures { ended result.refused result.steps (world depths.new lasts.new records.now result.run) ≡ back_from (plan shape marks.now) count 0 (world depths.old lasts.old records.now run) }
{
    let most = count as u64;
    let mut at = run;
    for steps in 0..most {
        let back = back_once(at, shape, marks, depths, lasts, records);
        let refused = back.refused;
        let before = back.run;
        if refused != 0 {
            return Ran {
                refused: refused,
                steps: steps,
                run: before,
            };
        }
        at = before;
    }
    Ran {
        refused: 0,
        steps: most,
        run: at,
    }
}

// A line `back`.
pub fn back_line(
    log: Log,
    count: u32,
    shape: Shape,
    marks: &[u8],
    depths: &mut [u32],
    lasts: &mut [u32],
    records: &[u32],
    began: &[u32],
) -> EntryTaken
    requires shape_in_range { (ShapeInRange shape) × (room_slots (plan shape marks.now) records.now ≤ slots_in most_hatches (length began.now)) }
    requires log_value { (standing_fine log ≡ true) × (kept_fine log (kinds.Back count) ≡ true) }
    ensures { BackTaken (plan shape marks.now) (evening depths.old lasts.old records.now began.now log) count result.number (evening depths.new lasts.new records.now began.now result.log) }
{
    let slots = trials::slots_in(record_size(shape), records.len());
    let back = take_backs(log.run, count, shape, marks, depths, lasts, records);
    let litres = rates_back(log, back.steps, slots, began);
    let run = back.run;
    EntryTaken {
        number: back.refused,
        log: further(log, run, log.steps - back.steps, litres),
    }
}

// What a line says, done; or a refusal.
fn take_said(
    said: Entry,
    log: Log,
    shape: Shape,
    rules: Rules,
    marks: &[u8],
    beds: &[u32],
    roughness: &[u32],
    rates: &[u32],
    rain: &[u32],
    inflow: &[u32],
    depths: &mut [u32],
    lasts: &mut [u32],
    records: &mut [u32],
    began: &mut [u32],
) -> EntryTaken
    ensures { TakesEntry (plan shape marks.now) (given (ground rules beds.now roughness.now rates.now) rain.now inflow.now) (Some said) (evening depths.old lasts.old records.old began.old log) result.number (evening depths.new lasts.new records.new began.new result.log) }
{
    let refused = entry_number(
        Some(said),
        log,
        shape,
        rules,
        marks,
        inflow,
        depths,
        records,
        began,
    );
    if refused != 0 {
        return EntryTaken {
            number: refused,
            log: log,
        };
    }
    match said {
        Entry::Hatch(number, row, column) => EntryTaken {
            number: 0,
            log: name_hatch(log, number, row, column),
        },
        Entry::Rate(clock, number, litres) => run_line(
            log, clock, number, litres, shape, rules, marks, beds, roughness, rates, rain, inflow,
            depths, lasts, records, began,
        ),
        Entry::Back(count) => back_line(log, count, shape, marks, depths, lasts, records, began),
    }
}

// What a line says, done; or a refusal, which is 12 where it cannot be read.
pub fn take_entry(
    entry: Option<Entry>,
    log: Log,
    shape: Shape,
    rules: Rules,
    marks: &[u8],
    beds: &[u32],
    roughness: &[u32],
    rates: &[u32],
    rain: &[u32],
    inflow: &[u32],
    depths: &mut [u32],
    lasts: &mut [u32],
    records: &mut [u32],
    began: &mut [u32],
) -> EntryTaken
    ensures { TakesEntry (plan shape marks.now) (given (ground rules beds.now roughness.now rates.now) rain.now inflow.now) entry (evening depths.old lasts.old records.old began.old log) result.number (evening depths.new lasts.new records.new began.new result.log) }
{
    let Some(said) = entry else {
        return EntryTaken {
            number: 12,
            log: log,
        };
    };
    take_said(
        said, log, shape, rules, marks, beds, roughness, rates, rain, inflow, depths, lasts,
        records, began,
    )
}
