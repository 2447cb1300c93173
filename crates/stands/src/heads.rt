// The lines before the hatches: `stand`, and four totals.
ghost use Rattle.std.specs.Prelude.{◌≡◌, [], ◌∷◌, ◌*◌, ◌+◌};
ghost use Rattle.reckon.specs.Tests.{◌unless◌, refusal};
ghost use Rattle.stands.specs.Texts.{half};
ghost use Rattle.stands.specs.Laying.{head_of, stand_line, total_line};

use crate::saved::HALF;
use text::reading::line_of;

// The first line: steps, clock, length, and whether hatches may still be named.
#[derive(Clone, Copy)]
pub(crate) struct StandLine {
    pub(crate) found: bool,
    pub(crate) steps: u64,
    pub(crate) clock: u64,
    pub(crate) length: u64,
    pub(crate) opening: bool,
    pub(crate) next: usize,
}

// A line of one number of 64 bits.
#[derive(Clone, Copy)]
pub(crate) struct TotalLine {
    pub(crate) found: bool,
    pub(crate) value: u64,
    pub(crate) next: usize,
}

// What the lines before the hatches say; the number of the first that cannot be read, 0 for none.
#[derive(Clone, Copy)]
pub(crate) struct Head {
    pub(crate) bad: usize,
    pub(crate) steps: u64,
    pub(crate) clock: u64,
    pub(crate) length: u64,
    pub(crate) opening: bool,
    pub(crate) outflow: u64,
    pub(crate) soaked: u64,
    pub(crate) start: u64,
    pub(crate) given: u64,
    pub(crate) next: usize,
}

// `stand` steps clock length opening.
const FIRST_FIELDS: usize = 4;

fn stand_line(text: &[u8]) -> StandLine
    ensures { result ≡ stand_line text.now }
{
    let Some(line) = line_of(text, 0, b"stand", FIRST_FIELDS) else {
        return StandLine {
            found: false,
            steps: 0,
            clock: 0,
            length: 0,
            opening: false,
            next: 0,
        };
    };
    let values = line.values;
    StandLine {
        found: values[3] <= 1,
        steps: values[0] as u64,
        clock: values[1] as u64,
        length: values[2] as u64,
        opening: values[3] == 1,
        next: line.next,
    }
}

// The number that its high and low 32 bits make.
fn whole(high: u32, low: u32) -> u64
    ensures { result ≡ high * half + low }
{
    high as u64 * HALF + low as u64
}

// A word, high and low.
const TOTAL_FIELDS: usize = 2;

fn total_line(text: &[u8], at: usize, word: &[u8]) -> TotalLine
    ensures { result ≡ total_line text.now at word.now }
{
    let Some(line) = line_of(text, at, word, TOTAL_FIELDS) else {
        return TotalLine {
            found: false,
            value: 0,
            next: at,
        };
    };
    let values = line.values;
    let value = whole(values[0], values[1]);
    TotalLine {
        found: true,
        value: value,
        next: line.next,
    }
}

// The number of the first of five lines that was not found, 0 for none.
fn first_unfound(first: bool, second: bool, third: bool, fourth: bool, fifth: bool) -> usize
    ensures { result ≡ refusal (1 unless first ∷ 2 unless second ∷ 3 unless third ∷ 4 unless fourth ∷ 5 unless fifth ∷ []) }
{
    if !first {
        return 1;
    }
    if !second {
        return 2;
    }
    if !third {
        return 3;
    }
    if !fourth {
        return 4;
    }
    if !fifth {
        return 5;
    }
    0
}

// All five lines.
pub(crate) fn read_head(text: &[u8]) -> Head
    ensures { result ≡ head_of text.now }
{
    let first = stand_line(text);
    let out = total_line(text, first.next, b"out");
    let soak = total_line(text, out.next, b"soak");
    let start = total_line(text, soak.next, b"start");
    let given = total_line(text, start.next, b"given");
    let bad = first_unfound(first.found, out.found, soak.found, start.found, given.found);
    Head {
        bad: bad,
        steps: first.steps,
        clock: first.clock,
        length: first.length,
        opening: first.opening,
        outflow: out.value,
        soaked: soak.value,
        start: start.value,
        given: given.value,
        next: given.next,
    }
}
