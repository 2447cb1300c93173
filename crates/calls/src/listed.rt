// The calls for the highest water and for lists of sheets (document 02, #114), made as they are lent, with contracts in the document's words: what
// specs/Listed.antt says that their caller has.
ghost use Rattle.ledger.specs.Runs.{plan, world};
ghost use Rattle.checks.specs.Given.{given, ground};
ghost use Rattle.lists.specs.Sheets.{file_of};
ghost use Rattle.lists.specs.Tally.{rooms};
ghost use Rattle.calls.specs.Listed.{AfterBeginning, AfterDrowned, AfterHighest, AfterList, AfterPeaks, AfterSheet};

use flood::run::Ran;
use grid::squares::Shape;
use ledger::runs::Run;
use lists::names::{Listed, MOST_SHEETS, read_list};
use lists::printing::put_drowned;
use lists::tally::{Tally, begin_tally, take_sheet};
use peaks::highest::highest_of;
use peaks::running::run_peaks;
use programs::limits::{OUT_ROOM, PROGRAM_SQUARES};
use rule::rules::Rules;

pub fn after_run_peaks(
    shape: Shape,
    rules: Rules,
    run: Run,
    end: u64,
    marks: &[u8],
    beds: &[u32],
    roughness: &[u32],
    rates: &[u32],
    rain: &[u32],
    inflow: &[u32],
    depths: &mut [u32],
    lasts: &mut [u32],
    records: &mut [u32],
    peaks: &mut [u32],
    clocks: &mut [u32],
) -> Ran
    ensures { AfterPeaks (plan shape marks.now) (given (ground rules beds.now roughness.now rates.now) rain.now inflow.now) end (world depths.old lasts.old records.old run) peaks.old clocks.old result (world depths.new lasts.new records.new result.run) peaks.new clocks.new }
{
    run_peaks(
        shape, rules, run, end, marks, beds, roughness, rates, rain, inflow, depths, lasts,
        records, peaks, clocks,
    )
}

pub fn after_highest_of(text: &[u8], out: &mut [u8; OUT_ROOM]) -> usize
    ensures { AfterHighest text.now out.old out.new result }
{
    highest_of(text, out)
}

pub fn after_read_list(text: &[u8]) -> Listed
    ensures { AfterList text.now result }
{
    read_list(text)
}

pub fn after_begin_tally(wet: u32) -> Tally
    ensures { AfterBeginning wet result }
{
    begin_tally(wet)
}

pub fn after_take_sheet(
    tally: Tally,
    opened: bool,
    text: &[u8],
    marks: &mut [u8; PROGRAM_SQUARES],
    counts: &mut [u8; PROGRAM_SQUARES],
    deepest: &mut [u32; PROGRAM_SQUARES],
    places: &mut [u8; PROGRAM_SQUARES],
    numbers: &mut [u32; MOST_SHEETS],
) -> Tally
    ensures { AfterSheet tally (file_of opened text.now) (rooms marks.old counts.old deepest.old places.old numbers.old) result (rooms marks.new counts.new deepest.new places.new numbers.new) }
{
    take_sheet(tally, opened, text, marks, counts, deepest, places, numbers)
}

pub fn after_put_drowned(
    tally: Tally,
    marks: &[u8; PROGRAM_SQUARES],
    counts: &[u8; PROGRAM_SQUARES],
    deepest: &[u32; PROGRAM_SQUARES],
    places: &[u8; PROGRAM_SQUARES],
    numbers: &[u32; MOST_SHEETS],
    out: &mut [u8; OUT_ROOM],
) -> usize
    ensures { AfterDrowned tally (rooms marks.now counts.now deepest.now places.now numbers.now) out.new result }
{
    put_drowned(tally, marks, counts, deepest, places, numbers, out)
}
