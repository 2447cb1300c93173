// Hours wet: for how long each square of a sheet's run was wet. The whole of `hours_wet` short of its input and output.
//
//   running  run_sheet_wet
//   hours    hours_of

#![tactic(auto)]

pub mod hours;
pub mod running;
