// The function of `display_exports` that other languages call, as a static library of its own: it calls the function of its name there and
// says its clause again. crates/display_exports/display.h declares it in C.
//
//   boards   flood_run_to_boards

#![tactic(auto)]

pub mod boards;
