// The highest water of each square over all states of a run, and the clock when it first stood so high.
//
//   raising   raise: one state more
//   running   run_peaks: a run to an end; run_sheet_peaks: that of a sheet
//   highest   highest_of: what is printed of one sheet

#![tactic(auto)]

pub mod highest;
pub mod raising;
pub mod running;
