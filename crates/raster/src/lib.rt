// Grids as the survey office sends and wants them: the ESRI ASCII grid's text, read at a position and put into a lent room. It knows nothing of
// sheets.
//
//   amounts   Scale
//   reading   Head, Entry; head_of, entry_at, grid_bad
//   writing   put_grid

#![tactic(auto)]

pub mod amounts;
pub mod reading;
pub mod writing;
