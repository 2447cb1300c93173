// Sheets moved to a set of the survey office's grids with a note, and back.
//
//   texts      the lines of a sheet and of its note, written
//   notes      a note read line by line
//   sets       a set: judged, compared, and put into rooms
//   moving     Part, Moved; to_part
//   returning  from_set

#![tactic(auto)]

pub mod moving;
mod notes;
pub mod returning;
mod sets;
mod texts;
