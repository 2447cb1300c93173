// What is lent to a call, judged before anything is made of it: refusals 1 to 6 by number, a fresh run, and how many steps a run can need.
//
//   refusals   check, check_step: refusals 1 to 6 of everything lent
//   fresh      fresh: a fresh run, clock 0, no trial kept, no last leaving; fresh_run: its value alone, with no check
//   bounds     step_bounds: the most and the least steps of a run, before it is made

#![tactic(auto)]

pub mod bounds;
pub mod fresh;
pub mod refusals;
