// Each public call, made once, with a contract in the letter's words: a call's own contract that says too little for the demands is refused here.

#![tactic(auto)]

pub mod exported;
pub mod hatch_log;
pub mod library;
pub mod listed;
pub mod repairing;
pub mod sliced;
pub mod surveyed;
pub mod timed;
pub mod watched;
