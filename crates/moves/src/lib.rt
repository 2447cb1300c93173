// What a step moves, worked from the water before it; nothing lent but working rooms is written.
//   way::Span             when a step is made, and how long it lasts
//   length::step_length   the length that a step holds
//   fill::fill            a step's record: what leaves each square through each side, and what soaks

#![tactic(auto)]

mod drops;
pub mod fill;
pub mod length;
pub mod way;
