// A sheet: the text of a grid, its ground, its water and its tables, read into lent rooms.
//
//   reading   Sheet, Heading; read, judge
//   lines     each kind of line, with its fields; grid_line, run_line
//   rooms     lines into rooms; count_rows, fill_rows

#![tactic(auto)]

pub mod lines;
pub mod reading;
pub mod rooms;
