// What the functions of a step hand on to one another by value.

// The length that the run holds, the clock at which a step starts, and how long it lasts.
#[derive(Clone, Copy)]
pub struct Span {
    pub held: u64,
    pub start: u64,
    pub duration: u64,
}

// A square, and the column in which it stands.
#[derive(Clone, Copy)]
pub(crate) struct Place {
    pub square: usize,
    pub column: usize,
}

// A row by its first square, and the mask of its columns that are worked.
#[derive(Clone, Copy)]
pub(crate) struct Row {
    pub first: usize,
    pub mask: u64,
}
