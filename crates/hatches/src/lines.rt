// The kinds of line of a log, each with its fields in their order.
ghost use Rattle.std.specs.Prelude.{◌≡◌};
ghost use Rattle.hatches.specs.Lines.{LineRead, as_rate, read_rate};
ghost use Rattle.hatches.specs.Inner.Lines.{handed};

use text::reading::{line_of, number_at, rest_of_line};

// What a line says: a hatch with its number, row and column; a clock, a hatch's number and litres per second; or how many steps to take back.
#[derive(Clone, Copy)]
pub enum Entry {
    Hatch(u32, u32, u32),
    Rate(u32, u32, u32),
    Back(u32),
}

// What a line says, if it can be read, and where the next one starts; after one that cannot be read it is its own position.
#[derive(Clone, Copy)]
pub struct LogLine {
    pub entry: Option<Entry>,
    pub next: usize,
}

// A clock, a hatch's number and litres: the clock stands where other lines have their word.
fn rate_line(text: &[u8], at: usize) -> Option<LogLine>
    ensures { result ≡ handed (read_rate text.now at) as_rate }
{
    let clock = number_at(text, at)?;
    let rest = rest_of_line(text, clock.next, 2)?;
    let values = rest.values;
    Some(LogLine {
        entry: Some(Entry::Rate(clock.value, values[0], values[1])),
        next: rest.next,
    })
}

// The line at a position.
pub fn log_line(text: &[u8], at: usize) -> LogLine
    ensures { LineRead text.now at result }
{
    if let Some(hatch) = line_of(text, at, b"hatch", 3) {
        let values = hatch.values;
        return LogLine {
            entry: Some(Entry::Hatch(values[0], values[1], values[2])),
            next: hatch.next,
        };
    }
    if let Some(back) = line_of(text, at, b"back", 1) {
        let values = back.values;
        return LogLine {
            entry: Some(Entry::Back(values[0])),
            next: back.next,
        };
    }
    rate_line(text, at).unwrap_or(LogLine {
        entry: None,
        next: at,
    })
}
