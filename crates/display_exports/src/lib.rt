// Level boards for other languages: a run to an end with a lent list of boards; `display_exports_c` is its static library. Nothing is asked of a
// caller: the call is refused by its number, 0 being none, and sizes are tried before all else, as in `exports`.
//
//   boards   flood_run_to_boards

#![tactic(auto)]

pub mod boards;
