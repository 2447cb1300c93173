// The list on standard input: a depth, and then names, one a line.
ghost use Rattle.std.specs.Prelude.{◌≡◌, ◌≤◌, length};
ghost use Rattle.lists.specs.Names.{ListRead, list_after, list_number, list_refused, names_from};

use programs::limits::MOST_TEXT;
use reckon::ranges::MOST_DEPTH;
use text::reading::{NEWLINE, byte_is, number_at};

// "up to 200 sheets' file names"
pub const MOST_SHEETS: usize = 200;

// The number of a refusal, 0 for none, and its line; the depth, and how many names there are.
#[derive(Clone, Copy)]
pub struct Listed {
    pub number: u32,
    pub line: usize,
    pub wet: u32,
    pub names: usize,
}

fn refused(line: usize) -> Listed
    ensures { result ≡ list_refused line }
{
    Listed {
        number: 12,
        line: line,
        wet: 0,
        names: 0,
    }
}

// How many lines stand from a position on, a last one without its newline counted.
fn count_names(text: &[u8], at: usize) -> usize
    requires { at ≤ length text.now }
    ensures { result ≡ names_from text.now at }
{
    let mut count: usize = 0;
    let mut begun = false;
    for p in at..text.len() {
        if text[p] == NEWLINE {
            count += 1;
            begun = false;
        } else {
            begun = true;
        }
    }
    if begun {
        return count + 1;
    }
    count
}

fn list_number(wet: u32, names: usize) -> u32
    ensures { result ≡ list_number wet names }
{
    if MOST_DEPTH < wet {
        return 5;
    }
    if MOST_SHEETS < names {
        return 16;
    }
    0
}

// The list whose first line begins with a depth that ends at a position.
fn list_after(text: &[u8], wet: u32, end: usize) -> Listed
    ensures { result ≡ list_after text.now wet end }
{
    if !byte_is(text, end, NEWLINE) {
        return refused(1);
    }
    let names = count_names(text, end + 1);
    Listed {
        number: list_number(wet, names),
        line: 0,
        wet: wet,
        names: names,
    }
}

// The list's refusal, or its depth and the count of its names.
pub fn read_list(text: &[u8]) -> Listed
    ensures { ListRead text.now result }
{
    if MOST_TEXT < text.len() {
        return refused(0);
    }
    match number_at(text, 0) {
        None => refused(1),
        Some(wet) => list_after(text, wet.value, wet.next),
    }
}
