// `meadow`'s limits, and the sizes of the rooms that go with them.
use ledger::record::{HEAD_WORDS, SQUARE_WORDS};

// The most bytes of a text, and a room that holds one more, so that a text that is too long is seen to be.
pub const MOST_TEXT: usize = 65_536;

pub const TEXT_ROOM: usize = MOST_TEXT + 1;

// The most squares, and the numbers of a room that holds one record of them.
pub const PROGRAM_SQUARES: usize = 1_024;

pub const RECORD_ROOM: usize = HEAD_WORDS + SQUARE_WORDS * PROGRAM_SQUARES;

// The bytes that always suffice for what is printed.
pub const OUT_ROOM: usize = 40_960;
