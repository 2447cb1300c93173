// What is printed of a run with its boards, put into a lent room.
ghost use Rattle.std.specs.Prelude.{◌≡◌, ◌+◌, ◌≤◌, length};
ghost use Rattle.text.specs.Writing.{Wrote};
ghost use Rattle.display.specs.Boards.{listed};
ghost use Rattle.programs.specs.Program.{Prints, most_printed};
ghost use Rattle.levels.specs.Levels.{counts_text, first_text};
ghost use Rattle.levels.specs.Inner.Put.{AllListed, PutLevel, PutLevels, level_most, levels_most, shown_text};

use answer::printing::put_refused;
use display::boards::{Board, Boards, Shown};
use text::reading::NEWLINE;
use text::writing::{put_byte, put_field, put_fields, put_line, put_word};

// The clock when the mark was first reached, `-` where it was not.
fn put_first(out: &mut [u8], at: usize, board: Board) -> usize
    requires { at + length (first_text board) ≤ length out.old }
    ensures { Wrote (first_text board) at out.old out.new result }
{
    if board.reached {
        return put_field(out, at, board.first);
    }
    put_word(out, at, b"\t-")
}

// The line of a board.
fn put_level(out: &mut [u8], at: usize, board: Board) -> usize
    requires { at + level_most ≤ length out.old }
    ensures { PutLevel board at out.old out.new result }
{
    let values = [
        board.row as u64,
        board.column as u64,
        board.mark as u64,
        board.highest as u64,
    ];
    let word = put_word(out, at, b"board");
    let fields = put_fields(out, word, &values);
    let first = put_first(out, fields, board);
    put_byte(out, first, NEWLINE)
}

// The lines of all boards, at the start of out.
fn put_levels(out: &mut [u8], boards: Boards) -> usize
    requires { (AllListed boards) × (levels_most ≤ length out.old) }
    ensures { PutLevels (listed boards) out.old out.new result }
{
    let mut next: usize = 0;
    for board in &boards.list[..boards.count] {
        next = put_level(out, next, *board);
    }
    next
}

// Steps made and clock.
fn put_counts(out: &mut [u8], at: usize, steps: u64, clock: u64) -> usize
    requires { at + length (counts_text steps clock) ≤ length out.old }
    ensures { Wrote (counts_text steps clock) at out.old out.new result }
{
    let made = [steps];
    let next = put_line(out, at, b"steps", &made);
    let time = [clock];
    put_line(out, next, b"clock", &time)
}

// The boards after a run, or its refusal alone, at the start of out.
pub(crate) fn put_shown(out: &mut [u8], shown: Shown) -> usize
    requires { (shown.ran.refused ≡ 0 → AllListed shown.boards) × (most_printed ≤ length out.old) }
    ensures { Prints (shown_text shown) out.old out.new result }
{
    let ran = shown.ran;
    if ran.refused != 0 {
        return put_refused(out, 0, ran.refused, 0);
    }
    let next = put_levels(out, shown.boards);
    put_counts(out, next, ran.steps, ran.run.clock)
}
