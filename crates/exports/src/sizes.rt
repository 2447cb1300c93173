// How many numbers a slice has that is lent for rules, a run or an answer.
pub const RULES_NUMBERS: usize = 7;

pub const RUN_NUMBERS: usize = 6;

pub const STEPS_NUMBERS: usize = 1;

pub(crate) const BOUNDS_NUMBERS: usize = 2;

pub(crate) const SPEED_NUMBERS: usize = 2;

pub(crate) const COUNT_NUMBERS: usize = 1;

pub(crate) const HEADING_NUMBERS: usize = 12;

pub(crate) const LINE_NUMBERS: usize = 1;

// The refusal of a slice that has not its size.
pub const NOT_ITS_SIZE: u32 = 1;
