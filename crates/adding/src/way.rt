// What the functions of a step are all handed by value.
use grid::squares::Shape;
use grid::walks::Walk;
use rule::rules::Rules;

// How a step goes about its work: by which walk, on which grid, by which rules, and whether no two inflow rows are for one square.
#[derive(Clone, Copy)]
pub struct Way {
    pub walk: Walk,
    pub shape: Shape,
    pub rules: Rules,
    pub apart: bool,
}
