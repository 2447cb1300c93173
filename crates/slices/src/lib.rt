// Slices of a sheet's run: between two of them is told, on standard error, how far it has come; the answer is that of the run in one. The whole of
// `meadow` short of its input and its answer's way out.
//
//   running  run_slices
//   meadow   meadow_told

#![tactic(auto)]

pub mod meadow;
pub mod running;
