// Numbers in metres with decimals, and whole ones: read at a position, and put into a lent room.
ghost use Rattle.std.specs.Prelude.{◌≡◌, false, ◌+◌, ◌≤◌, length, get_or};
ghost use Rattle.text.specs.Reading.{is_digit};
ghost use Rattle.text.specs.Writing.{Wrote};
ghost use Rattle.raster.specs.Amounts.{amount_at, amount_text, decimals_after, last_digits, places_of, up_to_most};
ghost use Rattle.raster.specs.Inner.Decimals.{DecimalsAt, NextDecimal, most_places, most_tenth};

use text::reading::{MOST_NUMBER, Number, byte_is, digit, is_digit, number_at};
use text::writing::{ZERO, put_byte, put_number};

// Metres with up to six decimals, that is micrometres; or a whole number.
#[derive(Clone, Copy)]
pub enum Scale {
    Metres,
    Whole,
}

const POINT: u8 = 46;

// Micrometres in a metre.
const METRE: u64 = 1_000_000;

const METRE_PLACES: usize = 6;

fn places_of(scale: Scale) -> usize
    ensures { (result ≡ places_of scale) × (result ≤ most_places) }
{
    match scale {
        Scale::Metres => METRE_PLACES,
        Scale::Whole => 0,
    }
}

// A number with its decimals, in units of the last place, and the position after them.
#[derive(Clone, Copy)]
struct Decimals {
    value: u64,
    next: usize,
}

// One decimal more: the digit at the position, or 0 where there is none.
fn next_decimal(text: &[u8], done: Decimals) -> Decimals
    requires { done.value ≤ most_tenth }
    ensures { NextDecimal text.now done.value done.next result.value result.next }
{
    let at = done.next;
    if is_digit(text, at) {
        return Decimals {
            value: done.value * 10 + digit(text, at),
            next: at + 1,
        };
    }
    Decimals {
        value: done.value * 10,
        next: at,
    }
}

// A whole number and the decimals from a position on, up to so many.
fn decimals_at(text: &[u8], at: usize, whole: u32, places: usize) -> Decimals
    requires { places ≤ most_places }
    ensures { DecimalsAt text.now at whole places result.value result.next }
{
    let mut done = Decimals {
        value: whole as u64,
        next: at,
    };
    for _ in 0..places {
        done = next_decimal(text, done);
    }
    done
}

// A number that is not above the most.
fn up_to_most(found: Decimals) -> Option<Number>
    ensures { result ≡ up_to_most found.value found.next }
{
    if MOST_NUMBER < found.value {
        return None;
    }
    Some(Number {
        value: found.value as u32,
        next: found.next,
    })
}

// A whole number that ends at a position, with what follows it: a point and one to so many decimals, or no point.
fn decimals_after(text: &[u8], at: usize, whole: u32, places: usize) -> Option<Number>
    requires { (places ≤ most_places) × (is_digit (get_or text.now at 0) ≡ false) }
    ensures { result ≡ decimals_after places text.now whole at }
{
    if !byte_is(text, at, POINT) {
        return up_to_most(decimals_at(text, at, whole, places));
    }
    if !is_digit(text, at + 1) {
        return None;
    }
    let found = decimals_at(text, at + 1, whole, places);
    if is_digit(text, found.next) {
        return None;
    }
    up_to_most(found)
}

// The number at a position, in micrometres where it is in metres.
pub(crate) fn amount_at(text: &[u8], at: usize, scale: Scale) -> Option<Number>
    ensures { result ≡ amount_at scale text.now at }
{
    let whole = number_at(text, at)?;
    decimals_after(text, whole.next, whole.value, places_of(scale))
}

// The last digits of a number, as many as are asked for: those before the last, and then the last.
fn put_last_digits(room: &mut [u8], at: usize, n: u64, places: usize) -> usize
    requires { at + places ≤ length room.old }
    ensures { Wrote (last_digits places n) at room.old room.new result }
{
    if places == 0 {
        return at;
    }
    let last = put_last_digits(room, at, n / 10, places - 1);
    put_byte(room, last, (ZERO + n % 10) as u8)
}

// Micrometres in metres, with six decimals.
fn put_metres(room: &mut [u8], at: usize, n: u64) -> usize
    requires { at + length (amount_text Scale.Metres n) ≤ length room.old }
    ensures { Wrote (amount_text Scale.Metres n) at room.old room.new result }
{
    let after = put_number(room, at, n / METRE);
    let decimals = put_byte(room, after, POINT);
    put_last_digits(room, decimals, n, METRE_PLACES)
}

// A number as it is written.
pub(crate) fn put_amount(room: &mut [u8], at: usize, n: u64, scale: Scale) -> usize
    requires { at + length (amount_text scale n) ≤ length room.old }
    ensures { Wrote (amount_text scale n) at room.old room.new result }
{
    match scale {
        Scale::Metres => put_metres(room, at, n),
        Scale::Whole => put_number(room, at, n),
    }
}
