// The functions of `exports` that other languages call, as a static library: each calls the function of its name there and says its clauses
// again. crates/exports/flood.h declares them in C.
//
//   steps    flood_fresh, flood_step, flood_step_wet, flood_run_to, flood_run_to_wet, flood_take_back
//   bounds   flood_step_bounds
//   sights   flood_arrow, flood_wet_rows
//   sheets   flood_read_sheet, flood_meadow

#![tactic(auto)]

pub mod bounds;
pub mod sheets;
pub mod sights;
pub mod steps;
