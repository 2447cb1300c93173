// The kinds of line of the desk, each with its fields in their order.
ghost use Rattle.std.specs.Prelude.{◌≡◌, ◌≤◌};
ghost use Rattle.text.specs.Reading.{as_fields, most_fields};
ghost use Rattle.desks.specs.Orders.{OrderRead, look_order, read_whole, try_order};

use hatches::lines::Entry;
use text::reading::{Fields, line_of};

// What a line asks for: a sheet of so many bytes; a hatch named or steps taken back, as in a hatch log; a hatch's litres per second; a count of
// steps, an end and whether each is shown; what stands now; all arrows; the most steps to an end; the state to be saved; a saved state of so many
// bytes; or nothing that can be read.
#[derive(Clone, Copy)]
pub enum Order {
    Sheet(u32),
    Entered(Entry),
    Draw(u32, u32),
    Step(u32, u32, u32),
    Show,
    Arrows,
    Most(u32),
    Stand,
    Lay(u32),
    NoOrder,
}

// The fields of a line of a kind, where it is the whole text.
fn whole_line(text: &[u8], word: &[u8], count: usize) -> Option<Fields>
    requires { count ≤ most_fields }
    ensures { result ≡ as_fields (read_whole text.now word.now count) }
{
    let line = line_of(text, 0, word, count)?;
    if line.next != text.len() {
        return None;
    }
    Some(line)
}

// A line that looks at what stands.
fn look_order(text: &[u8]) -> Order
    ensures { result ≡ look_order text.now }
{
    if whole_line(text, b"show", 0).is_some() {
        return Order::Show;
    }
    if whole_line(text, b"arrows", 0).is_some() {
        return Order::Arrows;
    }
    if let Some(most) = whole_line(text, b"most", 1) {
        let values = most.values;
        return Order::Most(values[0]);
    }
    if whole_line(text, b"stand", 0).is_some() {
        return Order::Stand;
    }
    Order::NoOrder
}

// A line of a trial, or one that looks.
fn try_order(text: &[u8]) -> Order
    ensures { result ≡ try_order text.now }
{
    if let Some(hatch) = whole_line(text, b"hatch", 3) {
        let values = hatch.values;
        return Order::Entered(Entry::Hatch(values[0], values[1], values[2]));
    }
    if let Some(draw) = whole_line(text, b"draw", 2) {
        let values = draw.values;
        return Order::Draw(values[0], values[1]);
    }
    if let Some(step) = whole_line(text, b"step", 3) {
        let values = step.values;
        return Order::Step(values[0], values[1], values[2]);
    }
    if let Some(back) = whole_line(text, b"back", 1) {
        let values = back.values;
        return Order::Entered(Entry::Back(values[0]));
    }
    look_order(text)
}

// What a line asks for: the text is that one line, its newline at its end.
pub fn order_of(text: &[u8]) -> Order
    ensures { OrderRead text.now result }
{
    if let Some(sheet) = whole_line(text, b"sheet", 1) {
        let values = sheet.values;
        return Order::Sheet(values[0]);
    }
    if let Some(lay) = whole_line(text, b"lay", 1) {
        let values = lay.values;
        return Order::Lay(values[0]);
    }
    try_order(text)
}
