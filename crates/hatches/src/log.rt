// The hatches of a log, and what its lines change beside what is lent.
ghost use Rattle.std.specs.Prelude.{◌≡◌};
ghost use Rattle.grid.specs.Squares.{ShapeInRange};
ghost use Rattle.hatches.specs.Log.{KeptRecords, Opened, is_named};

use grid::squares::Shape;
use ledger::record::record_size;
use ledger::runs::Run;

// A number of 1 to 9 stands at the place before it.
pub const MOST_HATCHES: usize = 9;

// The most records that are kept, and the most numbers of their room.
pub const MOST_KEPT: usize = 64;

pub const MOST_NUMBERS: usize = 16_384;

// Of each hatch whether it is named, and its row and column.
#[derive(Clone, Copy)]
pub struct Hatches {
    pub named: [bool; 9],
    pub rows: [u32; 9],
    pub columns: [u32; 9],
}

// What the lines of a log change, beside what is lent: the run, the steps standing, whether hatches may still be named, the hatches, and the
// litres per second that each runs at.
#[derive(Clone, Copy)]
pub struct Log {
    pub run: Run,
    pub steps: u64,
    pub opening: bool,
    pub hatches: Hatches,
    pub litres: [u32; 9],
}

// How many records are kept of a grid.
pub fn kept_records(shape: Shape) -> usize
    requires { ShapeInRange shape }
    ensures { KeptRecords shape result }
{
    let held = MOST_NUMBERS / record_size(shape);
    if MOST_KEPT < held {
        return MOST_KEPT;
    }
    held
}

// A log of which no line has been read.
pub fn open_log(run: Run) -> Log
    ensures { Opened run result }
{
    Log {
        run: run,
        steps: 0,
        opening: true,
        hatches: Hatches {
            named: [false; 9],
            rows: [0; 9],
            columns: [0; 9],
        },
        litres: [0; 9],
    }
}

// Whether a hatch is named.
pub fn is_named(hatches: Hatches, number: u32) -> bool
    ensures { result ≡ is_named hatches number }
{
    if number < 1 {
        return false;
    }
    if 9 < number {
        return false;
    }
    let named = hatches.named;
    let place = number as usize - 1;
    named[place]
}
