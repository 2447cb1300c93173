// The boards' text: a line a board, with its row, column and mark.
ghost use Rattle.std.specs.Prelude.{◌≡◌};
ghost use Rattle.levels.specs.Lines.{board_line};
ghost use Rattle.levels.specs.Inner.Put.{boards_found};

use display::boards::{Board, Boards, no_boards, with_board};
use text::reading::{number_at, rest_of_line};

// A board's line: its board, and where the next line starts.
#[derive(Clone, Copy)]
struct BoardLine {
    board: Board,
    next: usize,
}

// The number of the first line that cannot be read, 0 for none, and the boards of the lines before it.
#[derive(Clone, Copy)]
pub(crate) struct BoardsFound {
    pub(crate) bad: usize,
    pub(crate) boards: Boards,
}

// Column and mark, after the row.
const FIELDS_AFTER_ROW: usize = 2;

// The line at a position: the row stands where other lines have their word.
fn board_line(text: &[u8], at: usize) -> Option<BoardLine>
    ensures { result ≡ board_line text.now at }
{
    let row = number_at(text, at)?;
    let rest = rest_of_line(text, row.next, FIELDS_AFTER_ROW)?;
    let values = rest.values;
    Some(BoardLine {
        board: Board {
            row: row.value as usize,
            column: values[0] as usize,
            mark: values[1],
            highest: 0,
            reached: false,
            first: 0,
        },
        next: rest.next,
    })
}

// All lines, up to the first that cannot be read.
pub(crate) fn read_boards(text: &[u8]) -> BoardsFound
    ensures { result ≡ boards_found text.now }
{
    let mut boards = no_boards();
    let mut next: usize = 0;
    while next < text.len() {
        let Some(line) = board_line(text, next) else {
            return BoardsFound {
                bad: boards.count + 1,
                boards: boards,
            };
        };
        boards = with_board(boards, line.board);
        next = line.next;
    }
    BoardsFound {
        bad: 0,
        boards: boards,
    }
}
