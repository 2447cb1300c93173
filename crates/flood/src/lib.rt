// The flood program's library over lent slices. Refusals of document 01 are given by number, and a refused call has altered nothing.
//   step::step          one step by a Walk, after every check of the table (refusals 1 to 9, and 15)
//   step::step_checked  the same for callers who may know that the checks 1 to 6 pass: then they are not made
//   step::step_on       for callers whose checks 1 to 6 have passed and who lend their working rooms (refusals 7 to 9, and 15)
//   run::run_to         steps by a Walk to an end of the clock, after the checks
// The walk is all that two engines differ in: `Walk::All` works every square, `Walk::Wet` only those with something to work or to write.
// A fresh run and the checks are in `checks`; a take-back is the ledger's: ledger::take_back::take_back.

#![tactic(auto)]

pub mod run;
pub mod step;
