// What a step adds to each square: the water that the rows of rain and inflow give between its two clocks.
//   way::Way            how a step goes about its work
//   added::rows_apart   whether no two inflow rows are for the same square
//   added::add_water    what a step adds to each square
//   added::poured_once  what inflow adds to the square of a row, each square counted once

#![tactic(auto)]

pub mod added;
pub mod way;
