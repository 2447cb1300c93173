// The warden's desk: an evening of lines, each answered by text. One line a call, and of a line `step` one step a call.
//
//   orders     Order; order_of: what a line asks for
//   state      Desk, Series; empty_desk: what a desk is between two lines
//   sizes      how much of each room belongs to the sheet on the desk
//   answers    a state's frame, and how an answer ends
//   lines      what each line does over a sheet's own part of the rooms
//   command    wanted, command, make_next, make_further: the whole program short of its input and output

#![tactic(auto)]

pub mod answers;
pub mod command;
pub mod lines;
pub mod orders;
pub mod sizes;
pub mod state;
