// What follows once the amounts through the sides are known: new depths, last leaving, outflow and what soaked. It does not know the rule
// that gave the amounts.
//
//   spread      the new depths, worked in a room
//   reach       whether they fit, and the water written, at the squares that a step reaches
//   settle      Settled; settle, surely_settles

#![tactic(auto)]

mod reach;
pub mod settle;
mod spread;
