// A run to an end that shows each of its states to boards.
ghost use Rattle.std.specs.Prelude.{◌≡◌, ◌≤◌, leb, length};
ghost use Rattle.reckon.specs.Ranges.{last_clock};
ghost use Rattle.reckon.specs.Tests.{pick};
ghost use Rattle.grid.specs.Marks.{Marked};
ghost use Rattle.grid.specs.Squares.{OnGrid, squares};
ghost use Rattle.ledger.specs.Runs.{plan, world};
ghost use Rattle.checks.specs.Given.{given, ground};
ghost use Rattle.adding.specs.Inner.Added.{rows_apart};
ghost use Rattle.flood.specs.Step.{Passes};
ghost use Rattle.display.specs.Boards.{board_fine, boards_fine, listed};
ghost use Rattle.display.specs.Watch.{WatchesHeld};
ghost use Rattle.display.specs.Inner.Refreshed.{BoardsOn, WatchesOn, cleared, looked_at, refreshed, seen_after, seen_at, shown_with};

use crate::boards::{Board, Boards, MOST_BOARDS, Shown};
use adding::added::rows_apart;
use adding::way::Way;
use checks::refusals::check;
use flood::run::{Keeper, Ran, run_kept};
use grid::marks::is_closed;
use grid::squares::{Shape, square_at};
use grid::walks::Walk;
use ledger::runs::Run;
use reckon::ranges::MOST_DEPTH;
use rule::rules::Rules;

// The number of the refusal.
pub const BAD_BOARDS: u32 = 13;

// A board that has seen nothing yet.
fn clear(board: Board) -> Board
    ensures { result ≡ cleared board }
{
    Board {
        highest: 0,
        reached: false,
        first: 0,
        ..board
    }
}

// When it first was, after one more state so deep at a clock.
fn first_with(board: Board, depth: u32, clock: u64) -> u64
    ensures { result ≡ pick board.reached board.first (pick (leb board.mark depth) clock board.first) }
{
    if board.reached {
        return board.first;
    }
    if board.mark <= depth {
        return clock;
    }
    board.first
}

// A board after one more state, in which its square is so deep at a clock.
fn seen(board: Board, depth: u32, clock: u64) -> Board
    ensures { result ≡ seen_at depth clock board }
{
    Board {
        highest: board.highest.max(depth),
        reached: board.reached || board.mark <= depth,
        first: first_with(board, depth, clock),
        ..board
    }
}

// A board after a state of the grid, the first of a run or a later one.
fn looked(board: Board, starting: bool, clock: u64, shape: Shape, depths: &[u32]) -> Board
    requires { (OnGrid shape board.row board.column) × (length depths.now ≡ squares shape) }
    ensures { result ≡ looked_at shape depths.now starting clock board }
{
    let square = square_at(shape, board.row, board.column);
    let depth = depths[square];
    if starting {
        return seen(clear(board), depth, clock);
    }
    seen(board, depth, clock)
}

// Every counted board after a state of the grid.
fn refresh(boards: Boards, starting: bool, clock: u64, shape: Shape, depths: &[u32]) -> Boards
    requires { (BoardsOn shape boards) × (length depths.now ≡ squares shape) }
    ensures { result ≡ refreshed shape depths.now starting clock boards }
{
    let mut list = boards.list;
    for board in &mut list[..boards.count] {
        *board = looked(*board, starting, clock, shape, depths);
    }
    Boards {
        count: boards.count,
        list: list,
    }
}

// Refusal 13 for one board.
fn board_fine(board: Board, shape: Shape, marks: &[u8]) -> bool
    requires { Marked shape marks.now }
    ensures { result ≡ board_fine (plan shape marks.now) board }
{
    if shape.rows <= board.row {
        return false;
    }
    if shape.columns <= board.column {
        return false;
    }
    if is_closed(marks, square_at(shape, board.row, board.column)) {
        return false;
    }
    board.mark <= MOST_DEPTH
}

// Refusal 13: over sixteen, or a counted board that is not fine.
fn boards_fine(boards: Boards, shape: Shape, marks: &[u8]) -> bool
    requires { Marked shape marks.now }
    ensures { result ≡ boards_fine (plan shape marks.now) boards.count (listed boards) }
{
    if MOST_BOARDS < boards.count {
        return false;
    }
    boards.list[..boards.count]
        .iter()
        .all(|board| board_fine(*board, shape, marks))
}

// What a run came to, and the boards after it.
fn shown_with(refused: u32, steps: u64, run: Run, boards: Boards) -> Shown
    ensures { result ≡ shown_with refused steps run boards }
{
    Shown {
        ran: Ran {
            refused: refused,
            steps: steps,
            run: run,
        },
        boards: boards,
    }
}

// Boards see the state after each step.
impl Keeper for Boards {
    ghost fits = { λ p clock boards. BoardsOn p.shape boards };

    ghost keeps = { seen_after };

    fn keep(&mut self, shape: Shape, marks: &[u8], depths: &[u32], before: u64, clock: u64) {
        *self = refresh(*self, false, clock, shape, depths);
    }
}

// Steps while the clock is below the end, up to a step that is refused, with every board after the first state and after each step.
fn watch_on(
    boards: Boards,
    way: Way,
    run: Run,
    end: u64,
    marks: &[u8],
    beds: &[u32],
    roughness: &[u32],
    rates: &[u32],
    rain: &[u32],
    inflow: &[u32],
    depths: &mut [u32],
    lasts: &mut [u32],
    records: &mut [u32],
) -> Shown
    requires passes { Passes (plan way.shape marks.now) (given (ground way.rules beds.now roughness.now rates.now) rain.now inflow.now) (world depths.old lasts.old records.old run) }
    requires boards_on { (BoardsOn way.shape boards) × (way.apart ≡ rows_apart inflow.now) × (end ≤ last_clock) }
    ensures { WatchesOn (plan way.shape marks.now) (given (ground way.rules beds.now roughness.now rates.now) rain.now inflow.now) end (world depths.old lasts.old records.old run) boards result depths.new lasts.new records.new }
{
    let mut shown = refresh(boards, true, run.clock, way.shape, depths);
    let ran = run_kept(
        &mut shown, way, run, end, marks, beds, roughness, rates, rain, inflow, depths, lasts,
        records,
    );
    Shown {
        ran: ran,
        boards: shown,
    }
}

// A run to an end by the wet walk as `flood::run::run_to` makes it, with the boards refreshed at its start and after each step; or a refusal.
pub fn run_boards(
    boards: Boards,
    shape: Shape,
    rules: Rules,
    run: Run,
    end: u64,
    marks: &[u8],
    beds: &[u32],
    roughness: &[u32],
    rates: &[u32],
    rain: &[u32],
    inflow: &[u32],
    depths: &mut [u32],
    lasts: &mut [u32],
    records: &mut [u32],
) -> Shown
    ensures { WatchesHeld (plan shape marks.now) (given (ground rules beds.now roughness.now rates.now) rain.now inflow.now) end (world depths.old lasts.old records.old run) boards result depths.new lasts.new records.new }
{
    let number = check(
        shape,
        rules,
        run,
        end,
        marks,
        beds,
        roughness,
        rates,
        rain,
        inflow,
        depths,
        lasts,
        records.len(),
    );
    if number != 0 {
        return shown_with(number, 0, run, boards);
    }
    if !boards_fine(boards, shape, marks) {
        return shown_with(BAD_BOARDS, 0, run, boards);
    }
    let way = Way {
        walk: Walk::Wet,
        shape: shape,
        rules: rules,
        apart: rows_apart(inflow),
    };
    watch_on(
        boards, way, run, end, marks, beds, roughness, rates, rain, inflow, depths, lasts, records,
    )
}
