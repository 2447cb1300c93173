// A lent list of boards: taken up by value, shown a run, and put back. Only these functions hold a reference to boards.
ghost use Rattle.std.specs.Prelude.{◌≡◌, length};
ghost use Rattle.ledger.specs.Runs.{plan, world};
ghost use Rattle.checks.specs.Given.{given, ground};
ghost use Rattle.display.specs.Watch.{Watches};
ghost use Rattle.display.specs.Inner.Lent.{back_in, board_at, held_of};

use crate::boards::{Board, Boards, MOST_BOARDS, no_boards, with_board};
use crate::watch::run_boards;
use flood::run::Ran;
use grid::squares::Shape;
use ledger::runs::Run;
use rule::rules::Rules;

// The boards of a list by value.
pub fn held_of(boards: &[Board]) -> Boards
    ensures { result ≡ held_of boards.now }
{
    let mut held = no_boards();
    for board in boards {
        held = with_board(held, *board);
    }
    held
}

// The board at a place; past the sixteenth the one that stands there.
fn board_at(held: Boards, place: usize, board: Board) -> Board
    ensures { result ≡ board_at held place board }
{
    if place < MOST_BOARDS {
        let list = held.list;
        return list[place];
    }
    board
}

// Boards by value put back into their list; past the sixteenth it stays.
pub fn put_back(boards: &mut [Board], held: Boards)
    ensures { boards.new ≡ back_in held boards.old }
{
    for (i, board) in boards.iter_mut().enumerate() {
        *board = board_at(held, i, *board);
    }
}

// A run to an end by the wet walk as `flood::run::run_to` makes it, with a lent list of boards refreshed at its start and after each step; or a
// refusal.
pub fn run_to_boards(
    boards: &mut [Board],
    shape: Shape,
    rules: Rules,
    run: Run,
    end: u64,
    marks: &[u8],
    beds: &[u32],
    roughness: &[u32],
    rates: &[u32],
    rain: &[u32],
    inflow: &[u32],
    depths: &mut [u32],
    lasts: &mut [u32],
    records: &mut [u32],
) -> Ran
    ensures { Watches (plan shape marks.now) (given (ground rules beds.now roughness.now rates.now) rain.now inflow.now) end (world depths.old lasts.old records.old run) (length boards.old) boards.old result depths.new lasts.new records.new boards.new }
{
    let held = held_of(boards);
    let shown = run_boards(
        held, shape, rules, run, end, marks, beds, roughness, rates, rain, inflow, depths, lasts,
        records,
    );
    put_back(boards, shown.boards);
    shown.ran
}
