// Works one square root and one cube root aloud, as the display panel shows it and as `reckon::roots` finds them: in decimal, place by
// place from the top, each digit raised while its power still fits. docs/ROOTS.md holds what this prints.

#![tactic(auto)]

ghost use Rattle.std.specs.Prelude.{◌≡◌, ◌^◌, ◌≤◌, ◌<◌, leb};
ghost use Rattle.reckon.specs.Roots.{Root};
ghost use Rattle.reckon.specs.Inner.RootSearch.{SmallPower, Asked, Place, Raised};

use reckon::roots::{cube_root, square_root};

// Document 01's first worked case: 100·VM / D for a drop of 1,000 µm on squares of 1 m.
const SLOPE_SQUARED: u64 = 100_000;

// Its exit square: d² of a depth of 10,000 µm.
const DEPTH_SQUARED: u64 = 100_000_000;

fn words(rt: &impl Print, text: &[u8]) {
    let _ = rt.write_all(text);
}

fn number(rt: &impl Print, n: u64) {
    let _ = print!(rt; "{n}");
}

// The power's name, and a space.
fn power_name(rt: &impl Print, p: u64) {
    if p == 2 {
        return words(rt, b"square ");
    }
    words(rt, b"cube ");
}

fn title(rt: &impl Print, p: u64, n: u64) {
    words(rt, b"the ");
    power_name(rt, p);
    words(rt, b"root of ");
    number(rt, n);
    words(rt, b"\nits places:\n");
}

fn place_line(rt: &impl Print, place: u64) {
    words(rt, b"place ");
    number(rt, place);
    words(rt, b":\n");
}

fn trial_line(rt: &impl Print, p: u64, tried: u64, power: u64, fits: bool) {
    words(rt, b"  ");
    number(rt, tried);
    words(rt, b": its ");
    power_name(rt, p);
    words(rt, b"is ");
    number(rt, power);
    if fits {
        return words(rt, b", fits\n");
    }
    words(rt, b", too much\n");
}

// x to the power p.
fn raised(p: u64, x: u64) -> u64
    requires { (SmallPower p) × (x ^ p < 2 ^ 64) }
    ensures { result ≡ x ^ p }
{
    if p == 2 { x * x } else { x * x * x }
}

// One trial: whether the power of what is tried still fits into n.
fn still_fits(rt: &impl Print, p: u64, n: u64, tried: u64) -> bool
    requires { (SmallPower p) × (tried ^ p < 2 ^ 64) }
    ensures { result ≡ leb (tried ^ p) n }
{
    let power = raised(p, tried);
    trial_line(rt, p, tried, power, power <= n);
    power <= n
}

// The first place above the root, found from the size of n.
fn place_above(rt: &impl Print, p: u64, n: u64) -> u64
    requires { Asked p n }
    ensures { (Place p result) × (n < result ^ p) }
{
    let mut place: u64 = 1;
    while still_fits(rt, p, n, place) {
        place = place * 10;
    }
    place
}

// The root so far with the digit of one place: raised while its power still fits.
fn raise_digit(rt: &impl Print, p: u64, n: u64, place: u64, from: u64) -> u64
    requires { (Asked p n) × (Place p place) × (from ^ p ≤ n) }
    ensures { Raised p n place result }
{
    let mut root = from;
    while still_fits(rt, p, n, root + place) {
        root = root + place;
    }
    root
}

// The root, place by place from the top.
fn worked(rt: &impl Print, p: u64, n: u64) -> u64
    requires { Asked p n }
    ensures { Root p n result }
{
    title(rt, p, n);
    let mut root: u64 = 0;
    let mut place = place_above(rt, p, n);
    while 1 < place {
        place = place / 10;
        place_line(rt, place);
        root = raise_digit(rt, p, n, place, root);
    }
    root
}

// What was worked is what the library gives.
fn found(rt: &impl Print, root: u64, by_library: u64)
    requires { root ≡ by_library }
{
    words(rt, b"the root is ");
    number(rt, root);
    words(rt, b", and the library gives ");
    number(rt, by_library);
    words(rt, b"\n");
}

fn main(rt: HostRuntime) {
    found(
        &rt,
        worked(&rt, 2, SLOPE_SQUARED),
        square_root(SLOPE_SQUARED),
    );
    words(&rt, b"\n");
    found(&rt, worked(&rt, 3, DEPTH_SQUARED), cube_root(DEPTH_SQUARED));
}
