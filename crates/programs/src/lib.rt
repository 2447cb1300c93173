// What the programs share: their limits, a sheet read or refused, its fresh run to its end, and what is printed of that; and the whole of
// `meadow` short of its input and output. A room's size is its caller's: `meadow`'s limits are one choice.
//
//   limits    MOST_TEXT, TEXT_ROOM, PROGRAM_SQUARES, RECORD_ROOM, OUT_ROOM
//   reading   read_within
//   running   run_sheet
//   printing  put_ran
//   printer   Printer, printed_of
//   meadow    meadow_of

#![tactic(auto)]

pub mod limits;
pub mod meadow;
pub mod printer;
pub mod printing;
pub mod reading;
pub mod running;
