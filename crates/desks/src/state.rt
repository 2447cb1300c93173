// What a desk is between two lines, beside what is lent.
ghost use Rattle.std.specs.Prelude.{◌≡◌};
ghost use Rattle.grid.specs.Squares.{ShapeInRange};
ghost use Rattle.desks.specs.State.{DeskEmpty, KeptSlots, desk_with, fresh_desk, no_series};

use checks::fresh::fresh_run;
use evenings::program::no_night;
use grid::squares::Shape;
use hatches::log::{Log, open_log};
use ledger::record::record_size;
use sheet::reading::Heading;
use trying::given::{Account, MOST_SLOTS, open_account};

// The most squares, and rows of them, the most bytes of a text, and the numbers of the room of records.
pub const DESK_SQUARES: usize = 4_096;

pub const DESK_ALONG: usize = 64;

pub const DESK_TEXT: usize = 262_144;

pub const DESK_NUMBERS: usize = 1_572_864;

// The most rates that are kept, and the bytes that always suffice for an answer.
pub const DESK_RATES: usize = 2_304;

pub const DESK_OUT: usize = 262_144;

// The steps of a line `step` that are still to be made: whether one may be, how many at most, while the clock is below an end, and whether each is
// shown or the last alone.
#[derive(Clone, Copy)]
pub struct Series {
    pub on: bool,
    pub left: u32,
    pub end: u64,
    pub every: bool,
}

// Whether a sheet lies on the desk, and what it says; the log and the account of the trial; the steps still to be made; and how many bytes of the
// answer's room are to be written.
#[derive(Clone, Copy)]
pub struct Desk {
    pub ready: bool,
    pub heading: Heading,
    pub log: Log,
    pub account: Account,
    pub series: Series,
    pub length: usize,
}

// How many records are kept of a grid.
pub fn kept_slots(shape: Shape) -> usize
    requires { ShapeInRange shape }
    ensures { KeptSlots shape result }
{
    let held = DESK_NUMBERS / record_size(shape);
    if MOST_SLOTS < held {
        return MOST_SLOTS;
    }
    held
}

// No steps to be made.
pub(crate) fn no_series() -> Series
    ensures { result ≡ no_series }
{
    Series {
        on: false,
        left: 0,
        end: 0,
        every: false,
    }
}

// A desk with no sheet on it.
pub fn empty_desk() -> Desk
    ensures { DeskEmpty result }
{
    let night = no_night(0);
    let heading = night.heading;
    let log = night.log;
    Desk {
        ready: false,
        heading: heading,
        log: log,
        account: open_account(0, 0),
        series: no_series(),
        length: 0,
    }
}

// A desk with a sheet on it, before the first step: the water at the start, and the bytes of the answer.
pub(crate) fn fresh_desk(heading: Heading, start: u64, length: usize) -> Desk
    requires { ShapeInRange heading.shape }
    ensures { result ≡ fresh_desk heading start length }
{
    let run = fresh_run(heading.rules, kept_slots(heading.shape));
    Desk {
        ready: true,
        heading: heading,
        log: open_log(run),
        account: open_account(start, 0),
        series: no_series(),
        length: length,
    }
}

// A desk after a line: another log and account, and steps still to be made.
pub(crate) fn desk_with(
    desk: Desk,
    log: Log,
    account: Account,
    series: Series,
    length: usize,
) -> Desk
    ensures { result ≡ desk_with desk log account series length }
{
    let heading = desk.heading;
    Desk {
        ready: desk.ready,
        heading: heading,
        log: log,
        account: account,
        series: series,
        length: length,
    }
}

// A desk after a line that changed nothing.
pub(crate) fn desk_still(desk: Desk, length: usize) -> Desk
    ensures { result ≡ desk_with desk desk.log desk.account no_series length }
{
    let log = desk.log;
    let account = desk.account;
    desk_with(desk, log, account, no_series(), length)
}
