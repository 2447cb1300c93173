// The flood program for other languages: numbers and slices only; `exports_c` is the static library of these functions. Nothing is asked
// of a caller: a call is refused by its number, 0 being none. Rules go in and a run goes in and comes out as slices of exactly their size,
// and so does what a call gives besides; a slice of another size is refusal 1, before all else. flood.h says the same in C.
//   steps    flood_fresh, flood_step, flood_step_wet, flood_run_to, flood_run_to_wet, flood_take_back
//   bounds   flood_step_bounds
//   sights   flood_arrow, flood_wet_rows
//   sheets   flood_read_sheet, flood_meadow
//   sizes    inside: how many numbers each slice has
//   inputs   inside: shape, rules and run of the numbers lent
//   answers  inside: a run and a heading put into slices

#![tactic(auto)]

pub mod answers;
pub mod bounds;
pub mod inputs;
pub mod sheets;
pub mod sights;
pub mod sizes;
pub mod steps;
