// The desk's calls, made as they are lent, with contracts in the words of its theorems: what specs/Single.antt says that their caller has.
ghost use Rattle.sheet.specs.Sheet.{rooms};
ghost use Rattle.evenings.specs.Program.{stores};
ghost use Rattle.desk_calls.specs.Single.{AfterCommand, AfterNext, left_with};

use desks::command::{command, make_next};
use desks::state::{DESK_NUMBERS, DESK_OUT, DESK_RATES, DESK_SQUARES, Desk};
use reckon::tables::{INFLOW_ROOM, RAIN_ROOM};

pub fn after_command(
    desk: Desk,
    line: &[u8],
    text: &[u8],
    marks: &mut [u8; DESK_SQUARES],
    beds: &mut [u32; DESK_SQUARES],
    roughness: &mut [u32; DESK_SQUARES],
    rates: &mut [u32; DESK_SQUARES],
    rain: &mut [u32; RAIN_ROOM],
    inflow: &mut [u32; INFLOW_ROOM],
    depths: &mut [u32; DESK_SQUARES],
    lasts: &mut [u32; DESK_SQUARES],
    records: &mut [u32; DESK_NUMBERS],
    began: &mut [u32; DESK_RATES],
    out: &mut [u8; DESK_OUT],
) -> Desk
    ensures { AfterCommand desk (stores (rooms marks.old beds.old roughness.old rates.old depths.old rain.old inflow.old) lasts.old records.old began.old) line.now text.now (left_with result (stores (rooms marks.new beds.new roughness.new rates.new depths.new rain.new inflow.new) lasts.new records.new began.new) out.new) }
{
    command(
        desk, line, text, marks, beds, roughness, rates, rain, inflow, depths, lasts, records,
        began, out,
    )
}

pub fn after_make_next(
    desk: Desk,
    marks: &[u8; DESK_SQUARES],
    beds: &[u32; DESK_SQUARES],
    roughness: &[u32; DESK_SQUARES],
    rates: &[u32; DESK_SQUARES],
    rain: &[u32; RAIN_ROOM],
    inflow: &[u32; INFLOW_ROOM],
    depths: &mut [u32; DESK_SQUARES],
    lasts: &mut [u32; DESK_SQUARES],
    records: &mut [u32; DESK_NUMBERS],
    began: &mut [u32; DESK_RATES],
    out: &mut [u8; DESK_OUT],
) -> Desk
    ensures { AfterNext desk (stores (rooms marks.now beds.now roughness.now rates.now depths.old rain.now inflow.now) lasts.old records.old began.old) (left_with result (stores (rooms marks.now beds.now roughness.now rates.now depths.new rain.now inflow.now) lasts.new records.new began.new) out.new) }
{
    make_next(
        desk, marks, beds, roughness, rates, rain, inflow, depths, lasts, records, began, out,
    )
}
