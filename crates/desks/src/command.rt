// The whole program short of its input and output: how many bytes of text a line brings, what a line does, and the next step of a line `step`.
ghost use Rattle.std.specs.Prelude.{◌≡◌, true, List, ℕ, eqb, length};
ghost use Rattle.reckon.specs.Tests.{pick};
ghost use Rattle.grid.specs.Squares.{ShapeInRange};
ghost use Rattle.sheet.specs.Sheet.{rooms};
ghost use Rattle.programs.specs.Reading.{sheet_within};
ghost use Rattle.evenings.specs.Program.{given_held, stores};
ghost use Rattle.desks.specs.Orders.{order};
ghost use Rattle.desks.specs.State.{desk_squares, desk_out, desk_text};
ghost use Rattle.desks.specs.Lines.{ending_text, next_told, order_told};
ghost use Rattle.desks.specs.Command.{Leaves, Wanted, command_left, evening_on, inflow_on, is_sheet, other_left, plan_on, ready_number, sheet_left, step_left, told_on, untouched, wanted_by};
ghost use Rattle.desks.specs.Inner.Further.{FurtherSteps, StepPassesOn};
ghost use Rattle.desks.specs.Inner.Rooms.{GroundLong, RoomsLong, SheetLaid, SheetRooms, WorkLong};

use crate::answers::{put_ending, put_state};
use crate::lines::{next_step, order_line, refuse_line};
use crate::orders::{Order, order_of};
use crate::sizes::{heading_fine, sizes_of};
use crate::state::{
    DESK_ALONG, DESK_NUMBERS, DESK_OUT, DESK_RATES, DESK_SQUARES, DESK_TEXT, Desk, desk_still,
    fresh_desk,
};
use account::water_on;
use evenings::program::clear;
use grid::squares::squares_of;
use programs::reading::read_within;
use reckon::tables::{INFLOW_ROOM, RAIN_ROOM};
use sheet::reading::{Heading, Sheet};

// How many bytes of text come after a line.
fn wanted_by(order: Order) -> usize
    ensures { result ≡ wanted_by order }
{
    match order {
        Order::Sheet(bytes) => bytes as usize,
        Order::Lay(bytes) => bytes as usize,
        Order::Entered(entry) => 0,
        Order::Draw(number, litres) => 0,
        Order::Step(count, end, every) => 0,
        Order::Show => 0,
        Order::Arrows => 0,
        Order::Most(end) => 0,
        Order::Stand => 0,
        Order::NoOrder => 0,
    }
}

// Whether a line brings a sheet.
fn is_sheet(order: Order) -> bool
    ensures { result ≡ is_sheet order }
{
    match order {
        Order::Sheet(bytes) => true,
        Order::Lay(bytes) => false,
        Order::Entered(entry) => false,
        Order::Draw(number, litres) => false,
        Order::Step(count, end, every) => false,
        Order::Show => false,
        Order::Arrows => false,
        Order::Most(end) => false,
        Order::Stand => false,
        Order::NoOrder => false,
    }
}

// How many bytes of text come after a line, as its own words say.
pub fn wanted(line: &[u8]) -> usize
    ensures { Wanted line.now result }
{
    wanted_by(order_of(line))
}

// The desk with a sheet that was read into the rooms, and its frame.
fn lay_sheet(
    heading: Heading,
    marks: &[u8],
    depths: &[u32],
    lasts: &mut [u32],
    out: &mut [u8],
) -> Desk
    requires { (ShapeInRange heading.shape) × (length marks.now ≡ desk_squares) × (length depths.now ≡ desk_squares) × (length out.old ≡ desk_out) }
    ensures { SheetLaid heading marks.now depths.now lasts.old lasts.new out.old out.new result }
{
    clear(lasts);
    let shape = heading.shape;
    let squares = squares_of(shape);
    let start = water_on(shape, &marks[..squares], &depths[..squares]);
    let fresh = fresh_desk(heading, start, 0);
    let log = fresh.log;
    let account = fresh.account;
    let at = put_state(
        out,
        log,
        account,
        shape,
        &marks[..squares],
        &depths[..squares],
    );
    let length = put_ending(out, at, 0, 0);
    fresh_desk(heading, start, length)
}

// `sheet` bytes.
fn sheet_line(
    desk: Desk,
    bytes: usize,
    text: &[u8],
    marks: &mut [u8],
    beds: &mut [u32],
    roughness: &mut [u32],
    rates: &mut [u32],
    rain: &mut [u32],
    inflow: &mut [u32],
    depths: &mut [u32],
    lasts: &mut [u32],
    out: &mut [u8],
) -> Desk
    requires { SheetRooms (rooms marks.old beds.old roughness.old rates.old depths.old rain.old inflow.old) out.old }
    ensures { (records began : List ℕ) → Leaves (pick (eqb (length text.now) bytes) (sheet_left text.now (sheet_within desk_text text.now (rooms marks.old beds.old roughness.old rates.old depths.old rain.old inflow.old)) desk (stores (rooms marks.old beds.old roughness.old rates.old depths.old rain.old inflow.old) lasts.old records began)) (untouched desk (stores (rooms marks.old beds.old roughness.old rates.old depths.old rain.old inflow.old) lasts.old records began) (ending_text 12 0))) result (stores (rooms marks.new beds.new roughness.new rates.new depths.new rain.new inflow.new) lasts.new records began) out.old out.new }
{
    if text.len() != bytes {
        return refuse_line(desk, 12, 0, out);
    }
    let sheet = read_within(
        text, DESK_TEXT, marks, beds, roughness, rates, depths, rain, inflow,
    );
    match sheet {
        Sheet::Refused(number, line) => refuse_line(desk, number, line, out),
        Sheet::Read(heading) => lay_sheet(heading, marks, depths, lasts, out),
    }
}

// A line over the sheet on the desk: each room is lent as far as it belongs to the sheet.
fn line_held(
    desk: Desk,
    order: Order,
    text: &[u8],
    marks: &[u8],
    inflow: &[u32],
    depths: &mut [u32],
    lasts: &mut [u32],
    records: &[u32],
    began: &[u32],
    out: &mut [u8],
) -> Desk
    requires { (ready_number desk ≡ 0) × (RoomsLong marks.now inflow.now depths.old lasts.old records.now began.now out.old) }
    ensures { (beds roughness rates rain : List ℕ) → Leaves (told_on desk (stores (rooms marks.now beds roughness rates depths.old rain inflow.now) lasts.old records.now began.now) (order_told (plan_on desk (stores (rooms marks.now beds roughness rates depths.old rain inflow.now) lasts.old records.now began.now)) (evening_on desk.heading (stores (rooms marks.now beds roughness rates depths.old rain inflow.now) lasts.old records.now began.now) desk.log) desk.account desk.heading.rules (inflow_on desk.heading (stores (rooms marks.now beds roughness rates depths.old rain inflow.now) lasts.old records.now began.now)) text.now order)) result (stores (rooms marks.now beds roughness rates depths.new rain inflow.now) lasts.new records.now began.now) out.old out.new }
{
    let sizes = sizes_of(desk.heading);
    let squares = sizes.squares;
    let inflow_end = sizes.inflow;
    let records_end = sizes.records;
    let began_end = sizes.began;
    order_line(
        desk,
        order,
        text,
        &marks[..squares],
        &inflow[..inflow_end],
        &mut depths[..squares],
        &mut lasts[..squares],
        &records[..records_end],
        &began[..began_end],
        out,
    )
}

// Whether a desk has a sheet on it that its rooms can hold.
fn refused_at_once(desk: Desk) -> u32
    ensures { result ≡ ready_number desk }
{
    if !desk.ready {
        return 12;
    }
    if !heading_fine(desk.heading) {
        return 1;
    }
    0
}

// A line other than `sheet`.
fn other_line(
    desk: Desk,
    order: Order,
    text: &[u8],
    marks: &[u8],
    inflow: &[u32],
    depths: &mut [u32],
    lasts: &mut [u32],
    records: &[u32],
    began: &[u32],
    out: &mut [u8],
) -> Desk
    requires { RoomsLong marks.now inflow.now depths.old lasts.old records.now began.now out.old }
    ensures { (beds roughness rates rain : List ℕ) → Leaves (other_left desk (stores (rooms marks.now beds roughness rates depths.old rain inflow.now) lasts.old records.now began.now) text.now order) result (stores (rooms marks.now beds roughness rates depths.new rain inflow.now) lasts.new records.now began.now) out.old out.new }
{
    let number = refused_at_once(desk);
    if number != 0 {
        return refuse_line(desk, number, 0, out);
    }
    line_held(
        desk, order, text, marks, inflow, depths, lasts, records, began, out,
    )
}

// Takes a line, and the text that came after it: what it does, and its answer at the start of out.
pub fn command(
    desk: Desk,
    line: &[u8],
    text: &[u8],
    marks: &mut [u8; DESK_SQUARES],
    beds: &mut [u32; DESK_SQUARES],
    roughness: &mut [u32; DESK_SQUARES],
    rates: &mut [u32; DESK_SQUARES],
    rain: &mut [u32; RAIN_ROOM],
    inflow: &mut [u32; INFLOW_ROOM],
    depths: &mut [u32; DESK_SQUARES],
    lasts: &mut [u32; DESK_SQUARES],
    records: &mut [u32; DESK_NUMBERS],
    began: &mut [u32; DESK_RATES],
    out: &mut [u8; DESK_OUT],
) -> Desk
    ensures { Leaves (command_left desk (stores (rooms marks.old beds.old roughness.old rates.old depths.old rain.old inflow.old) lasts.old records.old began.old) text.now (order line.now)) result (stores (rooms marks.new beds.new roughness.new rates.new depths.new rain.new inflow.new) lasts.new records.new began.new) out.old out.new }
{
    let asked = order_of(line);
    if is_sheet(asked) {
        return sheet_line(
            desk,
            wanted_by(asked),
            text,
            marks,
            beds,
            roughness,
            rates,
            rain,
            inflow,
            depths,
            lasts,
            out,
        );
    }
    other_line(
        desk, asked, text, marks, inflow, depths, lasts, records, began, out,
    )
}

// A step over the sheet on the desk: each room is lent as far as it belongs to the sheet.
fn step_held(
    checked: bool,
    desk: Desk,
    marks: &[u8],
    beds: &[u32],
    roughness: &[u32],
    rates: &[u32],
    rain: &[u32],
    inflow: &[u32],
    depths: &mut [u32],
    lasts: &mut [u32],
    records: &mut [u32],
    began: &mut [u32],
    out: &mut [u8],
    left: &mut [u32],
    worked: &mut [u64],
    senders: &mut [u64],
    room: &mut [u32],
) -> Desk
    requires work_long { WorkLong left.old worked.old senders.old room.old }
    requires desk_value { (ready_number desk ≡ 0) × (RoomsLong marks.now inflow.now depths.old lasts.old records.old began.old out.old) × (GroundLong beds.now roughness.now rates.now rain.now) × (checked ≡ true → StepPassesOn desk (stores (rooms marks.now beds.now roughness.now rates.now depths.old rain.now inflow.now) lasts.old records.old began.old)) }
    ensures { Leaves (told_on desk (stores (rooms marks.now beds.now roughness.now rates.now depths.old rain.now inflow.now) lasts.old records.old began.old) (next_told (plan_on desk (stores (rooms marks.now beds.now roughness.now rates.now depths.old rain.now inflow.now) lasts.old records.old began.old)) (given_held desk.heading (stores (rooms marks.now beds.now roughness.now rates.now depths.old rain.now inflow.now) lasts.old records.old began.old)) (evening_on desk.heading (stores (rooms marks.now beds.now roughness.now rates.now depths.old rain.now inflow.now) lasts.old records.old began.old) desk.log) desk.account desk.series)) result (stores (rooms marks.now beds.now roughness.now rates.now depths.new rain.now inflow.now) lasts.new records.new began.new) out.old out.new }
{
    let sizes = sizes_of(desk.heading);
    let squares = sizes.squares;
    let rain_end = sizes.rain;
    let inflow_end = sizes.inflow;
    let records_end = sizes.records;
    let began_end = sizes.began;
    let shape = desk.heading.shape;
    let rows = shape.rows;
    next_step(
        checked,
        desk,
        &marks[..squares],
        &beds[..squares],
        &roughness[..squares],
        &rates[..squares],
        &rain[..rain_end],
        &inflow[..inflow_end],
        &mut depths[..squares],
        &mut lasts[..squares],
        &mut records[..records_end],
        &mut began[..began_end],
        out,
        &mut left[..squares],
        &mut worked[..rows],
        &mut senders[..rows],
        &mut room[..squares],
    )
}

// The next step of a line `step`, or its end, where it may be known that the step passes the checks 1 to 6.
fn make_step(
    checked: bool,
    desk: Desk,
    marks: &[u8; DESK_SQUARES],
    beds: &[u32; DESK_SQUARES],
    roughness: &[u32; DESK_SQUARES],
    rates: &[u32; DESK_SQUARES],
    rain: &[u32; RAIN_ROOM],
    inflow: &[u32; INFLOW_ROOM],
    depths: &mut [u32; DESK_SQUARES],
    lasts: &mut [u32; DESK_SQUARES],
    records: &mut [u32; DESK_NUMBERS],
    began: &mut [u32; DESK_RATES],
    out: &mut [u8; DESK_OUT],
    left: &mut [u32; DESK_SQUARES],
    worked: &mut [u64; DESK_ALONG],
    senders: &mut [u64; DESK_ALONG],
    room: &mut [u32; DESK_SQUARES],
) -> Desk
    requires { checked ≡ true → FurtherSteps desk (stores (rooms marks.now beds.now roughness.now rates.now depths.old rain.now inflow.now) lasts.old records.old began.old) }
    ensures { Leaves (step_left desk (stores (rooms marks.now beds.now roughness.now rates.now depths.old rain.now inflow.now) lasts.old records.old began.old)) result (stores (rooms marks.now beds.now roughness.now rates.now depths.new rain.now inflow.now) lasts.new records.new began.new) out.old out.new }
{
    let series = desk.series;
    if !series.on {
        return desk_still(desk, 0);
    }
    let number = refused_at_once(desk);
    if number != 0 {
        return refuse_line(desk, number, 0, out);
    }
    step_held(
        checked, desk, marks, beds, roughness, rates, rain, inflow, depths, lasts, records, began,
        out, left, worked, senders, room,
    )
}

// The next step of a line `step`, or its end: its answer at the start of out.
pub fn make_next(
    desk: Desk,
    marks: &[u8; DESK_SQUARES],
    beds: &[u32; DESK_SQUARES],
    roughness: &[u32; DESK_SQUARES],
    rates: &[u32; DESK_SQUARES],
    rain: &[u32; RAIN_ROOM],
    inflow: &[u32; INFLOW_ROOM],
    depths: &mut [u32; DESK_SQUARES],
    lasts: &mut [u32; DESK_SQUARES],
    records: &mut [u32; DESK_NUMBERS],
    began: &mut [u32; DESK_RATES],
    out: &mut [u8; DESK_OUT],
) -> Desk
    ensures { Leaves (step_left desk (stores (rooms marks.now beds.now roughness.now rates.now depths.old rain.now inflow.now) lasts.old records.old began.old)) result (stores (rooms marks.now beds.now roughness.now rates.now depths.new rain.now inflow.now) lasts.new records.new began.new) out.old out.new }
{
    let mut left = [0u32; DESK_SQUARES];
    let mut worked = [0u64; DESK_ALONG];
    let mut senders = [0u64; DESK_ALONG];
    let mut room = [0u32; DESK_SQUARES];
    make_step(
        false,
        desk,
        marks,
        beds,
        roughness,
        rates,
        rain,
        inflow,
        depths,
        lasts,
        records,
        began,
        out,
        &mut left,
        &mut worked,
        &mut senders,
        &mut room,
    )
}

// The same after a step that was made: what passes the checks 1 to 6 still does, and they are not made again. The working rooms are lent, once for
// all steps of a line.
pub fn make_further(
    desk: Desk,
    marks: &[u8; DESK_SQUARES],
    beds: &[u32; DESK_SQUARES],
    roughness: &[u32; DESK_SQUARES],
    rates: &[u32; DESK_SQUARES],
    rain: &[u32; RAIN_ROOM],
    inflow: &[u32; INFLOW_ROOM],
    depths: &mut [u32; DESK_SQUARES],
    lasts: &mut [u32; DESK_SQUARES],
    records: &mut [u32; DESK_NUMBERS],
    began: &mut [u32; DESK_RATES],
    out: &mut [u8; DESK_OUT],
    left: &mut [u32; DESK_SQUARES],
    worked: &mut [u64; DESK_ALONG],
    senders: &mut [u64; DESK_ALONG],
    room: &mut [u32; DESK_SQUARES],
) -> Desk
    requires { FurtherSteps desk (stores (rooms marks.now beds.now roughness.now rates.now depths.old rain.now inflow.now) lasts.old records.old began.old) }
    ensures { Leaves (step_left desk (stores (rooms marks.now beds.now roughness.now rates.now depths.old rain.now inflow.now) lasts.old records.old began.old)) result (stores (rooms marks.now beds.now roughness.now rates.now depths.new rain.now inflow.now) lasts.new records.new began.new) out.old out.new }
{
    make_step(
        true, desk, marks, beds, roughness, rates, rain, inflow, depths, lasts, records, began,
        out, left, worked, senders, room,
    )
}
