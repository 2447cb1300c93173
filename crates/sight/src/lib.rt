// What is seen of a grid: the flow arrow of a square after a step, and the wet rows with their count. Only a row slice is written.
//
//   speeds     Arrow; inside: the speed through a side, in f64, rounded once
//   arrows     Sight; arrow
//   all_arrows all_arrows: the arrows of a whole grid, checked once
//   wet_rows   Wet; ones_in, wet_rows
//   refusals   inside: the refusals 1 to 3, which both calls share

#![tactic(auto)]

pub mod all_arrows;
pub mod arrows;
mod refusals;
pub mod speeds;
pub mod wet_rows;
