// Holes in a survey: the `?` beds of a sheet found, filled in rounds, and the sheet written with what was given; the whole of `repair`
// short of its input and output.
//
//   rounds     unknown beds filled in rounds
//   holes      the `?` of a text, and the text with other beds in their places
//   repairing  REPAIR_ROOM; repair_of

#![tactic(auto)]

mod holes;
pub mod repairing;
mod rounds;
