// A state beside its depths and last leaving, and what its text gives.
use hatches::log::Log;

// The log's value, the water that it started with and what tables and hatches gave since.
#[derive(Clone, Copy)]
pub struct Saved {
    pub log: Log,
    pub start: u64,
    pub given: u64,
}

// What a text of a state gives: a refusal's number, 0 for none, and line (0 unless the number is 12); and the state, which counts where
// nothing is refused.
#[derive(Clone, Copy)]
pub struct Laid {
    pub number: u32,
    pub line: usize,
    pub saved: Saved,
}

// The most water that a state starts with: 4,096 squares at the greatest depth.
pub const MOST_START: u64 = 409_600_000_000;

// The most that is given: what a page in a browser holds exactly, 2^53 - 1.
pub const MOST_GIVEN: u64 = 9_007_199_254_740_991;

// A number of 64 bits is written as high and low 32 bits.
pub const HALF: u64 = 4_294_967_296;
