// Level boards from a text: the boards' lines, and what is printed of a sheet's run with its boards; the whole program short of its files.
//
//   lines     read_boards
//   printing  put_shown
//   program   boards_of

#![tactic(auto)]

pub mod lines;
pub mod printing;
pub mod program;
