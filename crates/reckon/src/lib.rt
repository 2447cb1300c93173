// Reckoning for all crates above: document 01's ranges, small numbers, whole-number roots, the tables of rain and
// inflow, and what is due to soak.
// The vocabulary of lists that every crate's definitions use stands in specs/Lists.antt, specs/Tests.antt.
//
//   copying   copy_into
//   ranges    the ends of document 01's ranges; side_fine, rate_fine, water_fine
//   numbers   lesser, greater, number, part
//   roots     square_root, cube_root
//   soaking   soak_due
//   tables    RAIN_WIDTH, RAIN_ROOM, INFLOW_WIDTH, INFLOW_ROOM; rain_fine, inflow_fine, rain_by, inflow_by, rain_added, inflow_added

#![tactic(auto)]

pub mod copying;
pub mod numbers;
pub mod ranges;
pub mod roots;
pub mod soaking;
pub mod tables;
