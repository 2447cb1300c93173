// What each line does over a sheet's own part of the rooms, and its answer.
ghost use Rattle.std.specs.Prelude.{◌≡◌, true, List, ◌++◌, ℕ, ◌≤◌, length};
ghost use Rattle.grid.specs.Squares.{ShapeInRange, squares};
ghost use Rattle.ledger.specs.Runs.{Plan, plan};
ghost use Rattle.checks.specs.Given.{given, ground};
ghost use Rattle.flood.specs.Inner.Step.{RoomsLent};
ghost use Rattle.hatches.specs.Log.{evening};
ghost use Rattle.trying.specs.Given.{account_opened};
ghost use Rattle.trying.specs.Lines.{came, draw_tried, name_tried};
ghost use Rattle.trying.specs.Inner.Passing.{StepPasses};
ghost use Rattle.desks.specs.State.{desk_squares, desk_out, no_series};
ghost use Rattle.desks.specs.Lines.{arrows_told, back_told, came_of, ending_text, entry_told, last_told, lay_told, made_told, most_told, next_told, one_less, order_told, plainly, stand_told, state_text, step_told, steps_left};
ghost use Rattle.desks.specs.Inner.Lent.{DeskTold, Lends, Shows, most_ending, refused_in, Answers};

use crate::answers::{put_ending, put_state};
use crate::orders::Order;
use crate::state::{
    DESK_SQUARES, DESK_TEXT, Desk, Series, desk_still, desk_with, kept_slots, no_series,
};
use checks::bounds::{Bounds, step_bounds};
use frames::arrows::put_arrows;
use frames::bounds::put_bounds;
use hatches::lines::Entry;
use reckon::ranges::LAST_CLOCK;
use sight::all_arrows::all_arrows;
use stands::laying::read_stand;
use stands::putting::put_stand;
use stands::saved::Saved;
use trying::given::open_account;
use trying::lines::{Tried, back, draw, name, step_once};

// The most steps of one line.
const MOST_STEPS: u32 = 64;

// A line that is refused at once.
pub(crate) fn refuse_line(desk: Desk, number: u32, line: usize, out: &mut [u8]) -> Desk
    requires { most_ending ≤ length out.old }
    ensures { DeskTold desk desk.log desk.account no_series (ending_text number line) out.old out.new result }
{
    let length = put_ending(out, 0, number, line);
    desk_still(desk, length)
}

// A line that came to something, and whose answer has no frame.
fn tried_line(desk: Desk, tried: Tried, out: &mut [u8]) -> Desk
    requires { most_ending ≤ length out.old }
    ensures { DeskTold desk tried.log tried.account no_series (ending_text tried.number 0) out.old out.new result }
{
    let length = put_ending(out, 0, tried.number, 0);
    desk_with(desk, tried.log, tried.account, no_series(), length)
}

// The frame of what a desk has come to, and the end of the answer.
fn shown_line(desk: Desk, tried: Tried, marks: &[u8], depths: &[u32], out: &mut [u8]) -> Desk
    requires { Shows (plan desk.heading.shape marks.now) depths.now out.old }
    ensures { DeskTold desk tried.log tried.account no_series (state_text (plan desk.heading.shape marks.now) tried.log tried.account depths.now ++ ending_text tried.number 0) out.old out.new result }
{
    let heading = desk.heading;
    let shape = heading.shape;
    let log = tried.log;
    let account = tried.account;
    let at = put_state(out, log, account, shape, marks, depths);
    let length = put_ending(out, at, tried.number, 0);
    desk_with(desk, log, account, no_series(), length)
}

// `show`.
fn show_line(desk: Desk, marks: &[u8], depths: &[u32], out: &mut [u8]) -> Desk
    requires { Shows (plan desk.heading.shape marks.now) depths.now out.old }
    ensures { DeskTold desk desk.log desk.account no_series (state_text (plan desk.heading.shape marks.now) desk.log desk.account depths.now ++ ending_text 0 0) out.old out.new result }
{
    let log = desk.log;
    let account = desk.account;
    let stands = Tried {
        number: 0,
        log: log,
        account: account,
    };
    shown_line(desk, stands, marks, depths, out)
}

// `back` count.
fn back_line(
    desk: Desk,
    count: u32,
    marks: &[u8],
    depths: &mut [u32],
    lasts: &mut [u32],
    records: &[u32],
    began: &[u32],
    out: &mut [u8],
) -> Desk
    requires { Lends (plan desk.heading.shape marks.now) depths.old lasts.old records.now began.now out.old }
    ensures { Answers (back_told (plan desk.heading.shape marks.now) (evening depths.old lasts.old records.now began.now desk.log) desk.account count) desk result (evening depths.new lasts.new records.now began.now result.log) out.old out.new }
{
    let heading = desk.heading;
    let log = desk.log;
    let account = desk.account;
    let tried = back(
        log,
        account,
        count,
        heading.shape,
        marks,
        depths,
        lasts,
        records,
        began,
    );
    if tried.number != 0 {
        return tried_line(desk, tried, out);
    }
    shown_line(desk, tried, marks, depths, out)
}

// `step` count end every: no step is made yet.
fn step_line(desk: Desk, count: u32, end: u32, every: u32, out: &mut [u8]) -> Desk
    requires { most_ending ≤ length out.old }
    ensures { (p : Plan) (d l c b : List ℕ) → Answers (step_told p (evening d l c b desk.log) desk.account count end every) desk result (evening d l c b result.log) out.old out.new }
{
    if count < 1 {
        return refuse_line(desk, 12, 0, out);
    }
    if MOST_STEPS < count {
        return refuse_line(desk, 12, 0, out);
    }
    if 1 < every {
        return refuse_line(desk, 12, 0, out);
    }
    let to = end as u64;
    if LAST_CLOCK < to {
        return refuse_line(desk, 5, 0, out);
    }
    let series = Series {
        on: true,
        left: count,
        end: to,
        every: every == 1,
    };
    let log = desk.log;
    let account = desk.account;
    desk_with(desk, log, account, series, 0)
}

// The end of a line `step`: what stands is shown where not each step was.
fn last_line(
    desk: Desk,
    tried: Tried,
    every: bool,
    marks: &[u8],
    depths: &[u32],
    out: &mut [u8],
) -> Desk
    requires { Shows (plan desk.heading.shape marks.now) depths.now out.old }
    ensures { (l c b : List ℕ) → Answers (last_told (plan desk.heading.shape marks.now) every (came tried.number (evening depths.now l c b tried.log) tried.account)) desk result (evening depths.now l c b result.log) out.old out.new }
{
    if every {
        return tried_line(desk, tried, out);
    }
    shown_line(desk, tried, marks, depths, out)
}

// One step less to be made.
fn one_less(series: Series) -> Series
    requires { 1 ≤ series.left }
    ensures { result ≡ one_less series }
{
    Series {
        on: true,
        left: series.left - 1,
        end: series.end,
        every: series.every,
    }
}

// A step that was made: it is shown where each is, and the line goes on.
fn made_line(
    desk: Desk,
    tried: Tried,
    series: Series,
    marks: &[u8],
    depths: &[u32],
    out: &mut [u8],
) -> Desk
    requires shows { Shows (plan desk.heading.shape marks.now) depths.now out.old }
    requires le_left { 1 ≤ series.left }
    ensures { (l c b : List ℕ) → Answers (made_told (plan desk.heading.shape marks.now) series (came tried.number (evening depths.now l c b tried.log) tried.account)) desk result (evening depths.now l c b result.log) out.old out.new }
{
    let log = tried.log;
    let account = tried.account;
    if !series.every {
        return desk_with(desk, log, account, one_less(series), 0);
    }
    let heading = desk.heading;
    let shape = heading.shape;
    let length = put_state(out, log, account, shape, marks, depths);
    desk_with(desk, log, account, one_less(series), length)
}

// Whether a line `step` has steps to make.
fn steps_left(series: Series, clock: u64) -> bool
    ensures { result ≡ steps_left series clock }
{
    if series.left < 1 {
        return false;
    }
    clock < series.end
}

// The next step of a line `step`, or its end, in working rooms that are lent. Where the step before it was made, the checks 1 to 6 are known to pass.
pub(crate) fn next_step(
    checked: bool,
    desk: Desk,
    marks: &[u8],
    beds: &[u32],
    roughness: &[u32],
    rates: &[u32],
    rain: &[u32],
    inflow: &[u32],
    depths: &mut [u32],
    lasts: &mut [u32],
    records: &mut [u32],
    began: &mut [u32],
    out: &mut [u8],
    left: &mut [u32],
    worked: &mut [u64],
    senders: &mut [u64],
    room: &mut [u32],
) -> Desk
    requires rooms_lent { RoomsLent desk.heading.shape left.old worked.old senders.old room.old }
    requires lends { (Lends (plan desk.heading.shape marks.now) depths.old lasts.old records.old began.old out.old) × (checked ≡ true → StepPasses (plan desk.heading.shape marks.now) (given (ground desk.heading.rules beds.now roughness.now rates.now) rain.now inflow.now) (evening depths.old lasts.old records.old began.old desk.log) desk.account) }
    ensures { Answers (next_told (plan desk.heading.shape marks.now) (given (ground desk.heading.rules beds.now roughness.now rates.now) rain.now inflow.now) (evening depths.old lasts.old records.old began.old desk.log) desk.account desk.series) desk result (evening depths.new lasts.new records.new began.new result.log) out.old out.new }
{
    let heading = desk.heading;
    let log = desk.log;
    let run = log.run;
    let series = desk.series;
    let account = desk.account;
    if !steps_left(series, run.clock) {
        let stands = Tried {
            number: 0,
            log: log,
            account: account,
        };
        return last_line(desk, stands, series.every, marks, depths, out);
    }
    let tried = step_once(
        checked,
        log,
        account,
        heading.shape,
        heading.rules,
        marks,
        beds,
        roughness,
        rates,
        rain,
        inflow,
        depths,
        lasts,
        records,
        began,
        left,
        worked,
        senders,
        room,
    );
    if tried.number != 0 {
        return last_line(desk, tried, series.every, marks, depths, out);
    }
    made_line(desk, tried, series, marks, depths, out)
}

// `hatch` number row column.
fn hatch_line(
    desk: Desk,
    number: u32,
    row: u32,
    column: u32,
    marks: &[u8],
    inflow: &[u32],
    out: &mut [u8],
) -> Desk
    requires { (ShapeInRange desk.heading.shape) × (length marks.now ≡ squares desk.heading.shape) × (most_ending ≤ length out.old) }
    ensures { (d l c b : List ℕ) → Answers (plainly (came_of (evening d l c b desk.log) (name_tried (plan desk.heading.shape marks.now) desk.heading.rules inflow.now desk.log desk.account number row column))) desk result (evening d l c b result.log) out.old out.new }
{
    let heading = desk.heading;
    let log = desk.log;
    let account = desk.account;
    let tried = name(
        log,
        account,
        number,
        row,
        column,
        heading.shape,
        heading.rules,
        marks,
        inflow,
    );
    tried_line(desk, tried, out)
}

// `draw` number litres.
fn draw_line(desk: Desk, number: u32, litres: u32, out: &mut [u8]) -> Desk
    requires { most_ending ≤ length out.old }
    ensures { (d l c b : List ℕ) → Answers (plainly (came_of (evening d l c b desk.log) (draw_tried desk.log desk.account number litres))) desk result (evening d l c b result.log) out.old out.new }
{
    let log = desk.log;
    let account = desk.account;
    let tried = draw(log, account, number, litres);
    tried_line(desk, tried, out)
}

// Rooms for what is seen of each square.
fn no_kinds() -> [u8; DESK_SQUARES]
    ensures { length result ≡ desk_squares }
{
    [0u8; DESK_SQUARES]
}

fn no_speeds() -> [f64; DESK_SQUARES]
    ensures { length result ≡ desk_squares }
{
    [0.0f64; DESK_SQUARES]
}

// `arrows`, seen into rooms of one number a square.
fn arrows_in(
    desk: Desk,
    marks: &[u8],
    depths: &[u32],
    records: &[u32],
    kinds: &mut [u8],
    east: &mut [f64],
    north: &mut [f64],
    out: &mut [u8],
) -> Desk
    requires { (Shows (plan desk.heading.shape marks.now) depths.now out.old) × (length kinds.old ≡ squares desk.heading.shape) × (length east.old ≡ squares desk.heading.shape) × (length north.old ≡ squares desk.heading.shape) }
    ensures { (l b : List ℕ) → Answers (arrows_told (plan desk.heading.shape marks.now) (evening depths.now l records.now b desk.log) desk.account desk.heading.rules) desk result (evening depths.now l records.now b result.log) out.old out.new }
{
    let heading = desk.heading;
    let shape = heading.shape;
    let rules = heading.rules;
    let log = desk.log;
    let number = all_arrows(
        shape,
        rules.square_side,
        log.run,
        marks,
        depths,
        records,
        kinds,
        east,
        north,
    );
    if number != 0 {
        return refuse_line(desk, number, 0, out);
    }
    let at = put_arrows(out, 0, shape, kinds, east, north);
    let length = put_ending(out, at, 0, 0);
    desk_still(desk, length)
}

// `arrows`.
fn arrows_line(desk: Desk, marks: &[u8], depths: &[u32], records: &[u32], out: &mut [u8]) -> Desk
    requires { Shows (plan desk.heading.shape marks.now) depths.now out.old }
    ensures { (l b : List ℕ) → Answers (arrows_told (plan desk.heading.shape marks.now) (evening depths.now l records.now b desk.log) desk.account desk.heading.rules) desk result (evening depths.now l records.now b result.log) out.old out.new }
{
    let mut kinds = no_kinds();
    let mut east = no_speeds();
    let mut north = no_speeds();
    let squares = marks.len();
    arrows_in(
        desk,
        marks,
        depths,
        records,
        &mut kinds[..squares],
        &mut east[..squares],
        &mut north[..squares],
        out,
    )
}

// The number of a refusal, 0 for none.
fn bounds_number(bounds: Bounds) -> u32
    ensures { result ≡ refused_in bounds }
{
    match bounds {
        Bounds::Refused(number) => number,
        Bounds::NotBounded => 0,
        Bounds::Bounded(figures) => 0,
    }
}

// `most` end.
fn most_line(desk: Desk, end: u32, out: &mut [u8]) -> Desk
    requires { desk_out ≡ length out.old }
    ensures { (p : Plan) (d l c b : List ℕ) → Answers (most_told p (evening d l c b desk.log) desk.account desk.heading.rules end) desk result (evening d l c b result.log) out.old out.new }
{
    let heading = desk.heading;
    let log = desk.log;
    let run = log.run;
    let bounds = step_bounds(heading.rules, run.clock, end as u64);
    let at = put_bounds(out, 0, bounds);
    let length = put_ending(out, at, bounds_number(bounds), 0);
    desk_still(desk, length)
}

// `stand`.
fn stand_line(desk: Desk, marks: &[u8], depths: &[u32], lasts: &[u32], out: &mut [u8]) -> Desk
    requires { (Shows (plan desk.heading.shape marks.now) depths.now out.old) × (length lasts.now ≡ squares desk.heading.shape) }
    ensures { (c b : List ℕ) → Answers (stand_told (plan desk.heading.shape marks.now) (evening depths.now lasts.now c b desk.log) desk.account) desk result (evening depths.now lasts.now c b result.log) out.old out.new }
{
    let heading = desk.heading;
    let log = desk.log;
    let account = desk.account;
    let saved = Saved {
        log: log,
        start: account.start,
        given: account.given,
    };
    let at = put_stand(out, 0, heading.shape, marks, depths, lasts, saved);
    let length = put_ending(out, at, 0, 0);
    desk_still(desk, length)
}

// A saved state that was read, and its frame.
fn laid_line(desk: Desk, saved: Saved, marks: &[u8], depths: &[u32], out: &mut [u8]) -> Desk
    requires { Shows (plan desk.heading.shape marks.now) depths.now out.old }
    ensures { DeskTold desk saved.log (account_opened saved.start saved.given) no_series (state_text (plan desk.heading.shape marks.now) saved.log (account_opened saved.start saved.given) depths.now ++ ending_text 0 0) out.old out.new result }
{
    let log = saved.log;
    let account = open_account(saved.start, saved.given);
    let laid = Tried {
        number: 0,
        log: log,
        account: account,
    };
    shown_line(desk, laid, marks, depths, out)
}

// `lay` bytes, and the text that came.
fn lay_line(
    desk: Desk,
    bytes: u32,
    text: &[u8],
    marks: &[u8],
    inflow: &[u32],
    depths: &mut [u32],
    lasts: &mut [u32],
    out: &mut [u8],
) -> Desk
    requires { (Shows (plan desk.heading.shape marks.now) depths.old out.old) × (length lasts.old ≡ squares desk.heading.shape) }
    ensures { (c b : List ℕ) → Answers (lay_told (plan desk.heading.shape marks.now) (evening depths.old lasts.old c b desk.log) desk.account inflow.now bytes text.now) desk result (evening depths.new lasts.new c b result.log) out.old out.new }
{
    if text.len() != bytes as usize {
        return refuse_line(desk, 12, 0, out);
    }
    if DESK_TEXT < text.len() {
        return refuse_line(desk, 12, 0, out);
    }
    let heading = desk.heading;
    let shape = heading.shape;
    let slots = kept_slots(shape);
    let laid = read_stand(text, shape, slots, marks, inflow, depths, lasts);
    if laid.number != 0 {
        return refuse_line(desk, laid.number, laid.line, out);
    }
    let saved = laid.saved;
    laid_line(desk, saved, marks, depths, out)
}

// A line that the hatch log has as well.
fn entry_line(
    desk: Desk,
    entry: Entry,
    marks: &[u8],
    inflow: &[u32],
    depths: &mut [u32],
    lasts: &mut [u32],
    records: &[u32],
    began: &[u32],
    out: &mut [u8],
) -> Desk
    requires { Lends (plan desk.heading.shape marks.now) depths.old lasts.old records.now began.now out.old }
    ensures { Answers (entry_told (plan desk.heading.shape marks.now) (evening depths.old lasts.old records.now began.now desk.log) desk.account desk.heading.rules inflow.now entry) desk result (evening depths.new lasts.new records.now began.now result.log) out.old out.new }
{
    match entry {
        Entry::Hatch(number, row, column) => hatch_line(
            desk, number, row, column, marks, inflow, out,
        ),
        Entry::Back(count) => back_line(desk, count, marks, depths, lasts, records, began, out),
        Entry::Rate(clock, number, litres) => refuse_line(desk, 12, 0, out),
    }
}

// What a line asks for, done; a sheet is read before this.
pub(crate) fn order_line(
    desk: Desk,
    order: Order,
    text: &[u8],
    marks: &[u8],
    inflow: &[u32],
    depths: &mut [u32],
    lasts: &mut [u32],
    records: &[u32],
    began: &[u32],
    out: &mut [u8],
) -> Desk
    requires { Lends (plan desk.heading.shape marks.now) depths.old lasts.old records.now began.now out.old }
    ensures { Answers (order_told (plan desk.heading.shape marks.now) (evening depths.old lasts.old records.now began.now desk.log) desk.account desk.heading.rules inflow.now text.now order) desk result (evening depths.new lasts.new records.now began.now result.log) out.old out.new }
{
    match order {
        Order::Entered(entry) => entry_line(
            desk, entry, marks, inflow, depths, lasts, records, began, out,
        ),
        Order::Draw(number, litres) => draw_line(desk, number, litres, out),
        Order::Step(count, end, every) => step_line(desk, count, end, every, out),
        Order::Show => show_line(desk, marks, depths, out),
        Order::Arrows => arrows_line(desk, marks, depths, records, out),
        Order::Most(end) => most_line(desk, end, out),
        Order::Stand => stand_line(desk, marks, depths, lasts, out),
        Order::Lay(bytes) => lay_line(desk, bytes, text, marks, inflow, depths, lasts, out),
        Order::Sheet(bytes) => refuse_line(desk, 12, 0, out),
        Order::NoOrder => refuse_line(desk, 12, 0, out),
    }
}
