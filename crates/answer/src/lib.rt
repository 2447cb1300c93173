// The answer to a sheet: what is printed of a world and of a refusal.
//
//   printing   put_refused, put_world

#![tactic(auto)]

pub mod printing;
