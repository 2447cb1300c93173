// The grid: its squares, their sides, marks and rim, and its rows as 64-bit masks of the wet squares.
//
//   squares   Shape, MOST_ALONG, MOST_SQUARES, shape_fine, squares_of, square_at, next_column, beside_on, opposite_side, on_rim
//   marks     is_closed, is_exit, marks_fine, inflow_squares_fine
//   masks     row_mask, mask_rows, ones, next_set
//   walks     Walk, LEAST_WET, next_within, next_after, beside_set

#![tactic(auto)]

pub mod marks;
pub mod masks;
pub mod squares;
pub mod walks;
