// A state saved as text and laid down again: what the desk's `stand` prints, and what its `lay` reads.
//
//   saved      Saved, Laid
//   putting    put_stand: the text of a state
//   heads      the lines before the hatches
//   naming     the hatches' lines
//   squares    the squares' lines, looked through, judged and stored
//   judging    refusals 3, 4 and 6 of what was read
//   laying     read_stand: a state read from its text

#![tactic(auto)]

pub mod heads;
pub mod judging;
pub mod laying;
pub mod naming;
pub mod putting;
pub mod saved;
pub mod squares;
