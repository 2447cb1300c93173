// What the desk prints of a state, put into a lent room at a place.
//
//   frame    Figures; put_frame
//   bounds   put_bounds
//   arrows   put_arrows

#![tactic(auto)]

pub mod arrows;
pub mod bounds;
pub mod frame;
