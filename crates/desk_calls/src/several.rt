// Several calls of the desk one after the other, with contracts in the words of its theorems: what specs/Several.antt says that their caller has.
ghost use Rattle.std.specs.Prelude.{◌≡◌, ◌-◌, ◌≤◌, length, take};
ghost use Rattle.sheet.specs.Sheet.{rooms};
ghost use Rattle.evenings.specs.Program.{stores};
ghost use Rattle.desks.specs.Orders.{order};
ghost use Rattle.desks.specs.Command.{Leaves, command_left};
ghost use Rattle.demands.specs.DeskCalls.{a_line, going_on};
ghost use Rattle.desk_calls.specs.Single.{left_with};
ghost use Rattle.desk_calls.specs.Several.{AfterBoth, AfterFurther, AfterSaved, AfterStepBack, AfterTurns};

use desks::command::{command, make_further, make_next};
use desks::state::{DESK_ALONG, DESK_NUMBERS, DESK_OUT, DESK_RATES, DESK_SQUARES, Desk};
use reckon::tables::{INFLOW_ROOM, RAIN_ROOM};

// Two desks.
#[derive(Clone, Copy)]
pub struct Desks {
    pub one: Desk,
    pub other: Desk,
}

// `done` and its newline.
const DONE_BYTES: usize = 5;

// One line at two desks.
pub fn line_at_both(
    desk: Desk,
    line: &[u8],
    text: &[u8],
    marks: &mut [u8; DESK_SQUARES],
    beds: &mut [u32; DESK_SQUARES],
    roughness: &mut [u32; DESK_SQUARES],
    rates: &mut [u32; DESK_SQUARES],
    rain: &mut [u32; RAIN_ROOM],
    inflow: &mut [u32; INFLOW_ROOM],
    depths: &mut [u32; DESK_SQUARES],
    lasts: &mut [u32; DESK_SQUARES],
    records: &mut [u32; DESK_NUMBERS],
    began: &mut [u32; DESK_RATES],
    out: &mut [u8; DESK_OUT],
    other_desk: Desk,
    other_marks: &mut [u8; DESK_SQUARES],
    other_beds: &mut [u32; DESK_SQUARES],
    other_roughness: &mut [u32; DESK_SQUARES],
    other_rates: &mut [u32; DESK_SQUARES],
    other_rain: &mut [u32; RAIN_ROOM],
    other_inflow: &mut [u32; INFLOW_ROOM],
    other_depths: &mut [u32; DESK_SQUARES],
    other_lasts: &mut [u32; DESK_SQUARES],
    other_records: &mut [u32; DESK_NUMBERS],
    other_began: &mut [u32; DESK_RATES],
    other_out: &mut [u8; DESK_OUT],
) -> Desks
    ensures { AfterBoth (a_line line.now text.now) desk (stores (rooms marks.old beds.old roughness.old rates.old depths.old rain.old inflow.old) lasts.old records.old began.old) other_desk (stores (rooms other_marks.old other_beds.old other_roughness.old other_rates.old other_depths.old other_rain.old other_inflow.old) other_lasts.old other_records.old other_began.old) (left_with result.one (stores (rooms marks.new beds.new roughness.new rates.new depths.new rain.new inflow.new) lasts.new records.new began.new) out.new) (left_with result.other (stores (rooms other_marks.new other_beds.new other_roughness.new other_rates.new other_depths.new other_rain.new other_inflow.new) other_lasts.new other_records.new other_began.new) other_out.new) }
{
    let one = command(
        desk, line, text, marks, beds, roughness, rates, rain, inflow, depths, lasts, records,
        began, out,
    );
    let other = command(
        other_desk,
        line,
        text,
        other_marks,
        other_beds,
        other_roughness,
        other_rates,
        other_rain,
        other_inflow,
        other_depths,
        other_lasts,
        other_records,
        other_began,
        other_out,
    );
    Desks {
        one: one,
        other: other,
    }
}

// The next step of a line `step` at two desks.
pub fn step_at_both(
    desk: Desk,
    marks: &[u8; DESK_SQUARES],
    beds: &[u32; DESK_SQUARES],
    roughness: &[u32; DESK_SQUARES],
    rates: &[u32; DESK_SQUARES],
    rain: &[u32; RAIN_ROOM],
    inflow: &[u32; INFLOW_ROOM],
    depths: &mut [u32; DESK_SQUARES],
    lasts: &mut [u32; DESK_SQUARES],
    records: &mut [u32; DESK_NUMBERS],
    began: &mut [u32; DESK_RATES],
    out: &mut [u8; DESK_OUT],
    other_desk: Desk,
    other_marks: &[u8; DESK_SQUARES],
    other_beds: &[u32; DESK_SQUARES],
    other_roughness: &[u32; DESK_SQUARES],
    other_rates: &[u32; DESK_SQUARES],
    other_rain: &[u32; RAIN_ROOM],
    other_inflow: &[u32; INFLOW_ROOM],
    other_depths: &mut [u32; DESK_SQUARES],
    other_lasts: &mut [u32; DESK_SQUARES],
    other_records: &mut [u32; DESK_NUMBERS],
    other_began: &mut [u32; DESK_RATES],
    other_out: &mut [u8; DESK_OUT],
) -> Desks
    ensures { AfterBoth going_on desk (stores (rooms marks.now beds.now roughness.now rates.now depths.old rain.now inflow.now) lasts.old records.old began.old) other_desk (stores (rooms other_marks.now other_beds.now other_roughness.now other_rates.now other_depths.old other_rain.now other_inflow.now) other_lasts.old other_records.old other_began.old) (left_with result.one (stores (rooms marks.now beds.now roughness.now rates.now depths.new rain.now inflow.now) lasts.new records.new began.new) out.new) (left_with result.other (stores (rooms other_marks.now other_beds.now other_roughness.now other_rates.now other_depths.new other_rain.now other_inflow.now) other_lasts.new other_records.new other_began.new) other_out.new) }
{
    let one = make_next(
        desk, marks, beds, roughness, rates, rain, inflow, depths, lasts, records, began, out,
    );
    let other = make_next(
        other_desk,
        other_marks,
        other_beds,
        other_roughness,
        other_rates,
        other_rain,
        other_inflow,
        other_depths,
        other_lasts,
        other_records,
        other_began,
        other_out,
    );
    Desks {
        one: one,
        other: other,
    }
}

// A line at one desk, a line at another, and the next step at the first.
pub fn in_turn(
    desk: Desk,
    line: &[u8],
    text: &[u8],
    marks: &mut [u8; DESK_SQUARES],
    beds: &mut [u32; DESK_SQUARES],
    roughness: &mut [u32; DESK_SQUARES],
    rates: &mut [u32; DESK_SQUARES],
    rain: &mut [u32; RAIN_ROOM],
    inflow: &mut [u32; INFLOW_ROOM],
    depths: &mut [u32; DESK_SQUARES],
    lasts: &mut [u32; DESK_SQUARES],
    records: &mut [u32; DESK_NUMBERS],
    began: &mut [u32; DESK_RATES],
    out: &mut [u8; DESK_OUT],
    other_desk: Desk,
    other_line: &[u8],
    other_text: &[u8],
    other_marks: &mut [u8; DESK_SQUARES],
    other_beds: &mut [u32; DESK_SQUARES],
    other_roughness: &mut [u32; DESK_SQUARES],
    other_rates: &mut [u32; DESK_SQUARES],
    other_rain: &mut [u32; RAIN_ROOM],
    other_inflow: &mut [u32; INFLOW_ROOM],
    other_depths: &mut [u32; DESK_SQUARES],
    other_lasts: &mut [u32; DESK_SQUARES],
    other_records: &mut [u32; DESK_NUMBERS],
    other_began: &mut [u32; DESK_RATES],
    other_out: &mut [u8; DESK_OUT],
) -> Desks
    ensures { AfterTurns desk (stores (rooms marks.old beds.old roughness.old rates.old depths.old rain.old inflow.old) lasts.old records.old began.old) line.now text.now other_desk (stores (rooms other_marks.old other_beds.old other_roughness.old other_rates.old other_depths.old other_rain.old other_inflow.old) other_lasts.old other_records.old other_began.old) other_line.now other_text.now (left_with result.one (stores (rooms marks.new beds.new roughness.new rates.new depths.new rain.new inflow.new) lasts.new records.new began.new) out.new) (left_with result.other (stores (rooms other_marks.new other_beds.new other_roughness.new other_rates.new other_depths.new other_rain.new other_inflow.new) other_lasts.new other_records.new other_began.new) other_out.new) }
{
    let asked = command(
        desk, line, text, marks, beds, roughness, rates, rain, inflow, depths, lasts, records,
        began, out,
    );
    let other = command(
        other_desk,
        other_line,
        other_text,
        other_marks,
        other_beds,
        other_roughness,
        other_rates,
        other_rain,
        other_inflow,
        other_depths,
        other_lasts,
        other_records,
        other_began,
        other_out,
    );
    let one = make_next(
        asked, marks, beds, roughness, rates, rain, inflow, depths, lasts, records, began, out,
    );
    Desks {
        one: one,
        other: other,
    }
}

// The next step of a line `step`, and the one after it, as the program makes them: it goes by the first and is not checked.
pub fn next_and_further(
    desk: Desk,
    marks: &[u8; DESK_SQUARES],
    beds: &[u32; DESK_SQUARES],
    roughness: &[u32; DESK_SQUARES],
    rates: &[u32; DESK_SQUARES],
    rain: &[u32; RAIN_ROOM],
    inflow: &[u32; INFLOW_ROOM],
    depths: &mut [u32; DESK_SQUARES],
    lasts: &mut [u32; DESK_SQUARES],
    records: &mut [u32; DESK_NUMBERS],
    began: &mut [u32; DESK_RATES],
    out: &mut [u8; DESK_OUT],
) -> Desk
    ensures { AfterFurther desk (stores (rooms marks.now beds.now roughness.now rates.now depths.old rain.now inflow.now) lasts.old records.old began.old) (left_with result (stores (rooms marks.now beds.now roughness.now rates.now depths.new rain.now inflow.now) lasts.new records.new began.new) out.new) }
{
    let first = make_next(
        desk, marks, beds, roughness, rates, rain, inflow, depths, lasts, records, began, out,
    );
    let mut left = [0u32; DESK_SQUARES];
    let mut worked = [0u64; DESK_ALONG];
    let mut senders = [0u64; DESK_ALONG];
    let mut room = [0u32; DESK_SQUARES];
    make_further(
        first,
        marks,
        beds,
        roughness,
        rates,
        rain,
        inflow,
        depths,
        lasts,
        records,
        began,
        out,
        &mut left,
        &mut worked,
        &mut senders,
        &mut room,
    )
}

// The next step of a line `step`, and a line.
pub fn step_and_back(
    desk: Desk,
    line: &[u8],
    text: &[u8],
    marks: &mut [u8; DESK_SQUARES],
    beds: &mut [u32; DESK_SQUARES],
    roughness: &mut [u32; DESK_SQUARES],
    rates: &mut [u32; DESK_SQUARES],
    rain: &mut [u32; RAIN_ROOM],
    inflow: &mut [u32; INFLOW_ROOM],
    depths: &mut [u32; DESK_SQUARES],
    lasts: &mut [u32; DESK_SQUARES],
    records: &mut [u32; DESK_NUMBERS],
    began: &mut [u32; DESK_RATES],
    out: &mut [u8; DESK_OUT],
) -> Desk
    ensures { AfterStepBack desk (stores (rooms marks.old beds.old roughness.old rates.old depths.old rain.old inflow.old) lasts.old records.old began.old) line.now text.now (left_with result (stores (rooms marks.new beds.new roughness.new rates.new depths.new rain.new inflow.new) lasts.new records.new began.new) out.new) }
{
    let tried = make_next(
        desk, marks, beds, roughness, rates, rain, inflow, depths, lasts, records, began, out,
    );
    command(
        tried, line, text, marks, beds, roughness, rates, rain, inflow, depths, lasts, records,
        began, out,
    )
}

// The bytes of an answer before its `done`.
fn before_done(length: usize) -> usize
    ensures { result ≡ length - 5 }
{
    if length < DONE_BYTES {
        return 0;
    }
    length - DONE_BYTES
}

// A line at a desk, with the first bytes of an answer as its text.
fn lay_saved(
    desk: Desk,
    line: &[u8],
    saved: &[u8],
    end: usize,
    marks: &mut [u8; DESK_SQUARES],
    beds: &mut [u32; DESK_SQUARES],
    roughness: &mut [u32; DESK_SQUARES],
    rates: &mut [u32; DESK_SQUARES],
    rain: &mut [u32; RAIN_ROOM],
    inflow: &mut [u32; INFLOW_ROOM],
    depths: &mut [u32; DESK_SQUARES],
    lasts: &mut [u32; DESK_SQUARES],
    records: &mut [u32; DESK_NUMBERS],
    began: &mut [u32; DESK_RATES],
    out: &mut [u8; DESK_OUT],
) -> Desk
    requires { end ≤ length saved.now }
    ensures { Leaves (command_left desk (stores (rooms marks.old beds.old roughness.old rates.old depths.old rain.old inflow.old) lasts.old records.old began.old) (take end saved.now) (order line.now)) result (stores (rooms marks.new beds.new roughness.new rates.new depths.new rain.new inflow.new) lasts.new records.new began.new) out.old out.new }
{
    command(
        desk,
        line,
        &saved[..end],
        marks,
        beds,
        roughness,
        rates,
        rain,
        inflow,
        depths,
        lasts,
        records,
        began,
        out,
    )
}

// A line at one desk, and at another a line with what the first answered, without its `done`.
pub fn saved_and_laid(
    desk: Desk,
    saving: &[u8],
    text: &[u8],
    marks: &mut [u8; DESK_SQUARES],
    beds: &mut [u32; DESK_SQUARES],
    roughness: &mut [u32; DESK_SQUARES],
    rates: &mut [u32; DESK_SQUARES],
    rain: &mut [u32; RAIN_ROOM],
    inflow: &mut [u32; INFLOW_ROOM],
    depths: &mut [u32; DESK_SQUARES],
    lasts: &mut [u32; DESK_SQUARES],
    records: &mut [u32; DESK_NUMBERS],
    began: &mut [u32; DESK_RATES],
    out: &mut [u8; DESK_OUT],
    other_desk: Desk,
    laying: &[u8],
    other_marks: &mut [u8; DESK_SQUARES],
    other_beds: &mut [u32; DESK_SQUARES],
    other_roughness: &mut [u32; DESK_SQUARES],
    other_rates: &mut [u32; DESK_SQUARES],
    other_rain: &mut [u32; RAIN_ROOM],
    other_inflow: &mut [u32; INFLOW_ROOM],
    other_depths: &mut [u32; DESK_SQUARES],
    other_lasts: &mut [u32; DESK_SQUARES],
    other_records: &mut [u32; DESK_NUMBERS],
    other_began: &mut [u32; DESK_RATES],
    other_out: &mut [u8; DESK_OUT],
) -> Desks
    ensures { AfterSaved desk (stores (rooms marks.old beds.old roughness.old rates.old depths.old rain.old inflow.old) lasts.old records.old began.old) other_desk (stores (rooms other_marks.old other_beds.old other_roughness.old other_rates.old other_depths.old other_rain.old other_inflow.old) other_lasts.old other_records.old other_began.old) saving.now laying.now (left_with result.one (stores (rooms marks.new beds.new roughness.new rates.new depths.new rain.new inflow.new) lasts.new records.new began.new) out.new) (left_with result.other (stores (rooms other_marks.new other_beds.new other_roughness.new other_rates.new other_depths.new other_rain.new other_inflow.new) other_lasts.new other_records.new other_began.new) other_out.new) }
{
    let one = command(
        desk, saving, text, marks, beds, roughness, rates, rain, inflow, depths, lasts, records,
        began, out,
    );
    let end = before_done(one.length);
    let other = lay_saved(
        other_desk,
        laying,
        out,
        end,
        other_marks,
        other_beds,
        other_roughness,
        other_rates,
        other_rain,
        other_inflow,
        other_depths,
        other_lasts,
        other_records,
        other_began,
        other_out,
    );
    Desks {
        one: one,
        other: other,
    }
}
