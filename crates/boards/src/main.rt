// Reads two file names from standard input, a sheet's and a list of boards', runs the sheet to its end, and writes of each board the highest
// depth seen and the clock when its mark was first reached.

#![tactic(auto)]

use files::read_two;
use levels::program::boards_of;
use programs::limits::{OUT_ROOM, TEXT_ROOM};

fn main(rt: HostRuntime) {
    let mut sheet = [0u8; TEXT_ROOM];
    let mut boards = [0u8; TEXT_ROOM];
    let handed = read_two(&rt, &mut sheet, &mut boards);
    let sheet_length = handed.first;
    let boards_length = handed.second;
    let mut out = [0u8; OUT_ROOM];
    let length = boards_of(&sheet[..sheet_length], &boards[..boards_length], &mut out);
    let _ = rt.write_all(&out[..length]);
}
