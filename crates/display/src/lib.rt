// Level boards on the wheel-house display: a run to an end that refreshes up to sixteen boards after each step. It is over the stepping library,
// and sees only its contracts.
//
//   boards   Board, Boards, Shown, MOST_BOARDS, no_board, no_boards, with_board
//   watch    run_boards
//   lent     held_of, put_back, run_to_boards

#![tactic(auto)]

pub mod boards;
pub mod lent;
pub mod watch;
