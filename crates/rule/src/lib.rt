// The rule of one square: what leaves it through its four sides in a step, and how long a step may be. All by value; it knows no grid.
//
//   rules      Rules; rules_fine, ground_fine
//   drops      drop_to, drop_off
//   weighing   weigh
//   low_roots  inside: bounds of roots from below, found by shifts
//   length     shorter, held_length, is_update, duration_for, steps_over

#![tactic(auto)]

pub mod drops;
pub mod length;
pub mod low_roots;
pub mod rules;
pub mod weighing;
