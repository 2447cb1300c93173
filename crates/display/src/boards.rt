// A board, and up to sixteen of them by value.
ghost use Rattle.std.specs.Prelude.{◌≡◌, ◌+◌, ◌<◌, ◌^◌};
ghost use Rattle.display.specs.Boards.{no_board, no_boards, with_board};

use flood::run::Ran;

// A board's square and mark, which it keeps; the highest depth seen there, whether the mark was reached, and the clock when it first was
// (0 where it was not). Laid out as in C and with no enum within, so that other languages can lend a list of them.
#[repr(C)]
#[derive(Clone, Copy)]
pub struct Board {
    pub row: usize,
    pub column: usize,
    pub mark: u32,
    pub highest: u32,
    pub reached: bool,
    pub first: u64,
}

pub const MOST_BOARDS: usize = 16;

// How many boards there are, and the first sixteen of them; the rest of the list is not looked at.
#[derive(Clone, Copy)]
pub struct Boards {
    pub count: usize,
    pub list: [Board; MOST_BOARDS],
}

// What a run came to, and the boards after it.
#[derive(Clone, Copy)]
pub struct Shown {
    pub ran: Ran,
    pub boards: Boards,
}

// Any board.
pub fn no_board() -> Board
    ensures { result ≡ no_board }
{
    Board {
        row: 0,
        column: 0,
        mark: 0,
        highest: 0,
        reached: false,
        first: 0,
    }
}

pub fn no_boards() -> Boards
    ensures { result ≡ no_boards }
{
    let board = no_board();
    Boards {
        count: 0,
        list: [board; MOST_BOARDS],
    }
}

// One board more at the list's end; past the sixteenth they are only counted.
pub fn with_board(boards: Boards, board: Board) -> Boards
    requires { boards.count + 1 < 2 ^ 64 }
    ensures { result ≡ with_board boards board }
{
    let next = boards.count + 1;
    let count = boards.count;
    let mut list = boards.list;
    if MOST_BOARDS <= count {
        return Boards {
            count: next,
            list: list,
        };
    }
    list[count] = board;
    Boards {
        count: next,
        list: list,
    }
}
