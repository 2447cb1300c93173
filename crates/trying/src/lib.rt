// A trial at the warden's desk: what its lines change, the account beside them, and when a line is refused. A trial is an evening of the hatch log
// whose steps are made one at a time.
//
//   given    Account; open_account: what the tables gave the standing steps
//   lines    Tried; name, draw, step_once, back

#![tactic(auto)]

pub mod given;
pub mod lines;
