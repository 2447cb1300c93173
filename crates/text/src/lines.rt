// Lines of a text without their newlines, as names are written one a line.
ghost use Rattle.std.specs.Prelude.{◌≤◌, length};
ghost use Rattle.text.specs.Lines.{LineEnd, NextLine, LineAt, NthLine};

use crate::reading::{NEWLINE, byte_is};

// Where a line starts and ends, and whether a newline stands at its end.
#[derive(Clone, Copy)]
pub struct Line {
    pub from: usize,
    pub to: usize,
    pub ended: bool,
}

// Where the line at a position ends: its newline, or the text's end where it has none.
pub fn line_end(text: &[u8], at: usize) -> usize
    requires { at ≤ length text.now }
    ensures { LineEnd text.now at result }
{
    for end in at..text.len() {
        if text[end] == NEWLINE {
            return end;
        }
    }
    text.len()
}

// Where the line after the one at a position starts.
pub fn next_line(text: &[u8], at: usize) -> usize
    requires { at ≤ length text.now }
    ensures { NextLine text.now at result }
{
    let end = line_end(text, at);
    if end < text.len() {
        return end + 1;
    }
    end
}

// The line at a position.
pub fn line_at(text: &[u8], at: usize) -> Line
    requires { at ≤ length text.now }
    ensures { LineAt text.now at result }
{
    let end = line_end(text, at);
    Line {
        from: at,
        to: end,
        ended: byte_is(text, end, NEWLINE),
    }
}

// Line k of a text, from 0; past the last an empty one at the text's end, with no newline.
pub fn nth_line(text: &[u8], k: usize) -> Line
    ensures { NthLine text.now k result }
{
    let mut at: usize = 0;
    for _ in 0..k {
        at = next_line(text, at);
    }
    line_at(text, at)
}
