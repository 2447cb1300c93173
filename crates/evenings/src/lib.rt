// Evenings at the hatches: one line of a log taken at a time, so that an evening of trials has no bound.
//
//   taking     EntryTaken; take_entry: what a line does
//   telling    LineTaken; take_line: a line read, taken, and what is printed of it
//   program    Night; begin_log, go_on: the whole program short of its files

#![tactic(auto)]

pub mod program;
pub mod taking;
pub mod telling;
