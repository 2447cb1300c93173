// The hatch log's calls (document 02, #107), made as they are lent, with contracts in the document's words: what specs/Evenings.antt says that
// their caller has.
ghost use Rattle.ledger.specs.Runs.{plan};
ghost use Rattle.checks.specs.Given.{given, ground};
ghost use Rattle.sheet.specs.Sheet.{rooms};
ghost use Rattle.hatches.specs.Log.{evening};
ghost use Rattle.evenings.specs.Program.{stores};
ghost use Rattle.demands.specs.HatchLog.{stores_with};
ghost use Rattle.calls.specs.Evenings.{AfterBegin, AfterRead, AfterGoingOn, AfterLine};

use evenings::program::{Night, RATES_ROOM, begin_log, go_on};
use evenings::taking::{EntryTaken, take_entry};
use evenings::telling::{LineTaken, take_line};
use grid::squares::Shape;
use hatches::lines::Entry;
use hatches::log::{Log, MOST_NUMBERS};
use programs::limits::{OUT_ROOM, PROGRAM_SQUARES};
use reckon::tables::{INFLOW_ROOM, RAIN_ROOM};
use rule::rules::Rules;

pub fn after_take_entry(
    entry: Option<Entry>,
    log: Log,
    shape: Shape,
    rules: Rules,
    marks: &[u8],
    beds: &[u32],
    roughness: &[u32],
    rates: &[u32],
    rain: &[u32],
    inflow: &[u32],
    depths: &mut [u32],
    lasts: &mut [u32],
    records: &mut [u32],
    began: &mut [u32],
) -> EntryTaken
    ensures { AfterRead (plan shape marks.now) (given (ground rules beds.now roughness.now rates.now) rain.now inflow.now) entry (evening depths.old lasts.old records.old began.old log) result.number (evening depths.new lasts.new records.new began.new result.log) }
{
    take_entry(
        entry, log, shape, rules, marks, beds, roughness, rates, rain, inflow, depths, lasts,
        records, began,
    )
}

pub fn after_take_line(
    text: &[u8],
    at: usize,
    line: usize,
    log: Log,
    shape: Shape,
    rules: Rules,
    marks: &[u8],
    beds: &[u32],
    roughness: &[u32],
    rates: &[u32],
    rain: &[u32],
    inflow: &[u32],
    depths: &mut [u32],
    lasts: &mut [u32],
    records: &mut [u32],
    began: &mut [u32],
    out: &mut [u8; OUT_ROOM],
) -> LineTaken
    ensures { AfterLine (plan shape marks.now) (given (ground rules beds.now roughness.now rates.now) rain.now inflow.now) text.now at line (evening depths.old lasts.old records.old began.old log) result (evening depths.new lasts.new records.new began.new result.log) out.old out.new }
{
    take_line(
        text, at, line, log, shape, rules, marks, beds, roughness, rates, rain, inflow, depths,
        lasts, records, began, out,
    )
}

pub fn after_begin_log(
    sheet: &[u8],
    log: &[u8],
    marks: &mut [u8; PROGRAM_SQUARES],
    beds: &mut [u32; PROGRAM_SQUARES],
    roughness: &mut [u32; PROGRAM_SQUARES],
    rates: &mut [u32; PROGRAM_SQUARES],
    rain: &mut [u32; RAIN_ROOM],
    inflow: &mut [u32; INFLOW_ROOM],
    depths: &mut [u32; PROGRAM_SQUARES],
    lasts: &mut [u32; PROGRAM_SQUARES],
    records: &mut [u32; MOST_NUMBERS],
    began: &mut [u32; RATES_ROOM],
    out: &mut [u8; OUT_ROOM],
) -> Night
    ensures { AfterBegin sheet.now log.now result (stores (rooms marks.new beds.new roughness.new rates.new depths.new rain.new inflow.new) lasts.new records.new began.new) out.new }
{
    begin_log(
        sheet, log, marks, beds, roughness, rates, rain, inflow, depths, lasts, records, began, out,
    )
}

pub fn after_go_on(
    night: Night,
    text: &[u8],
    marks: &[u8],
    beds: &[u32],
    roughness: &[u32],
    rates: &[u32],
    rain: &[u32],
    inflow: &[u32],
    depths: &mut [u32],
    lasts: &mut [u32],
    records: &mut [u32],
    began: &mut [u32],
    out: &mut [u8; OUT_ROOM],
) -> Night
    ensures { AfterGoingOn text.now night (stores (rooms marks.now beds.now roughness.now rates.now depths.old rain.now inflow.now) lasts.old records.old began.old) result (stores_with (stores (rooms marks.now beds.now roughness.now rates.now depths.old rain.now inflow.now) lasts.old records.old began.old) depths.new lasts.new records.new began.new) out.new }
{
    go_on(
        night, text, marks, beds, roughness, rates, rain, inflow, depths, lasts, records, began,
        out,
    )
}
