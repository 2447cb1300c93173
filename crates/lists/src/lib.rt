// Lists of sheets: each sheet judged and run, and what is counted of each square over those that were accepted.
//
//   names     Listed; read_list: the depth, and how many names a list has
//   plans     same_plan: whether two grids have one shape and the same marks
//   judging   judge: one sheet's number, and its peaks
//   merging   merge: one accepted sheet more
//   tally     Tally; begin_tally, take_sheet
//   printing  put_drowned: what is printed at the end

#![tactic(auto)]

pub mod judging;
pub mod merging;
pub mod names;
pub mod plans;
pub mod printing;
pub mod tally;
