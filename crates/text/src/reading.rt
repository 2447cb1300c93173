// Reading at a position of a text. A position past the end reads as nothing.
ghost use Rattle.std.specs.Prelude.{◌≡◌, true, ◌&&◌, ◌+◌, ◌≤◌, eqb, get_or, drop};
ghost use Rattle.text.specs.Reading.{most_fields, is_digit, digits_of, number_from, ByteIs, WordAt, DigitJudged, DigitAt, NumberReadAt, FieldAt, FieldsAt, RestOfLine, LineOf};

// A number read at a position: its value and the position after it.
#[derive(Clone, Copy)]
pub struct Number {
    pub value: u32,
    pub next: usize,
}

// The fields of a line: their values with 0 after them, and the position after them.
#[derive(Clone, Copy)]
pub struct Fields {
    pub values: [u32; 8],
    pub next: usize,
}

pub const TAB: u8 = 9;

pub const NEWLINE: u8 = 10;

// The most that a number can be.
pub const MOST_NUMBER: u64 = 4_294_967_295;

// A given byte stands at a position.
pub fn byte_is(text: &[u8], at: usize, byte: u8) -> bool
    ensures { ByteIs text.now at byte result }
{
    if text.len() <= at {
        return false;
    }
    text[at] == byte
}

// A word stands at a position.
pub fn word_at(text: &[u8], at: usize, word: &[u8]) -> bool
    ensures { WordAt text.now at word.now result }
{
    if text.len() < at {
        return false;
    }
    text[at..].starts_with(word)
}

// A digit stands at a position.
pub fn is_digit(text: &[u8], at: usize) -> bool
    ensures { DigitJudged text.now at result }
{
    if text.len() <= at {
        return false;
    }
    if text[at] < b'0' {
        return false;
    }
    text[at] <= b'9'
}

// The digit at a position.
pub fn digit(text: &[u8], at: usize) -> u64
    requires { is_digit (get_or text.now at 0) ≡ true }
    ensures { DigitAt text.now at result }
{
    (text[at] - b'0') as u64
}

// The digit at a position is a 0 with another digit after it.
fn needless_zero(text: &[u8], at: usize) -> bool
    requires { is_digit (get_or text.now at 0) ≡ true }
    ensures { result ≡ (eqb (get_or text.now at 0) 48 && is_digit (get_or text.now (at + 1) 0)) }
{
    if text[at] != b'0' {
        return false;
    }
    is_digit(text, at + 1)
}

// The digits at a position as a number, none where they make more than the most.
fn digits(text: &[u8], at: usize) -> Option<Number>
    ensures { result ≡ number_from (digits_of (drop at text.now)) at }
{
    let mut value: u64 = 0;
    let mut next = at;
    while is_digit(text, next) {
        value = value * 10 + digit(text, next);
        if MOST_NUMBER < value {
            return None;
        }
        next += 1;
    }
    Some(Number {
        value: value as u32,
        next,
    })
}

// The number at a position, if one stands there.
pub fn number_at(text: &[u8], at: usize) -> Option<Number>
    ensures { NumberReadAt text.now at result }
{
    if !is_digit(text, at) {
        return None;
    }
    if needless_zero(text, at) {
        return None;
    }
    digits(text, at)
}

// A tab and a number.
pub fn field_at(text: &[u8], at: usize) -> Option<Number>
    ensures { FieldAt text.now at result }
{
    if !byte_is(text, at, TAB) {
        return None;
    }
    number_at(text, at + 1)
}

// Exactly count fields from a position on.
pub fn fields_at(text: &[u8], at: usize, count: usize) -> Option<Fields>
    requires { count ≤ most_fields }
    ensures { FieldsAt text.now at count result }
{
    let mut values: [u32; 8] = [0; 8];
    let mut next = at;
    for i in 0..count {
        let field = field_at(text, next)?;
        values[i] = field.value;
        next = field.next;
    }
    Some(Fields { values, next })
}

// Exactly count fields from a position on, and then the end of the line.
pub fn rest_of_line(text: &[u8], at: usize, count: usize) -> Option<Fields>
    requires { count ≤ most_fields }
    ensures { RestOfLine text.now at count result }
{
    let fields = fields_at(text, at, count)?;
    let end = fields.next;
    if !byte_is(text, end, NEWLINE) {
        return None;
    }
    Some(Fields {
        next: end + 1,
        ..fields
    })
}

// A line of a kind: its word, exactly count fields, and the end of the line.
pub fn line_of(text: &[u8], at: usize, word: &[u8], count: usize) -> Option<Fields>
    requires { count ≤ most_fields }
    ensures { LineOf text.now at word.now count result }
{
    if !word_at(text, at, word) {
        return None;
    }
    rest_of_line(text, at + word.len(), count)
}
