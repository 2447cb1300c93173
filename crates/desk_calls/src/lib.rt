// The desk's calls, made one by one and several in turn, with contracts in the words of its theorems: a call's own contract that says too little for
// them is refused here.
//
//   single    after_command, after_make_next: each call, made once
//   several   a line or a step at two desks, two desks in turn, a further step, a step taken back, a state saved and laid again

#![tactic(auto)]

pub mod several;
pub mod single;
