// Whole-number roots: the largest r whose square, or whose cube, is at most n. They are found as the display panel shows it, in decimal:
// place by place from the top, each digit raised while its power still fits (docs/ROOTS.md).
ghost use Rattle.std.specs.Prelude.{◌≡◌, ◌+◌, ◌*◌, ◌^◌, ◌≤◌, ◌<◌};
ghost use Rattle.reckon.specs.Roots.{Root};
ghost use Rattle.reckon.specs.Inner.RootSearch.{SmallPower, Asked, PowerOfTen, Place, Above, Raised};

// x to the power p.
fn raised(p: u64, x: u64) -> u64
    requires { (SmallPower p) × (x ^ p < 2 ^ 64) }
    ensures { result ≡ x ^ p }
{
    if p == 2 { x * x } else { x * x * x }
}

// The first place above a square root: the squares of 1, 10, 100 and so on are tried, as long as they fit into n.
fn above_square_root(n: u64) -> u64
    requires { n < 10 ^ 18 }
    ensures { Above 2 n result }
{
    if n < 1 {
        return 1;
    }
    if n < 100 {
        return 10;
    }
    if n < 10_000 {
        return 100;
    }
    if n < 1_000_000 {
        return 1_000;
    }
    if n < 100_000_000 {
        return 10_000;
    }
    if n < 10_000_000_000 {
        return 100_000;
    }
    if n < 1_000_000_000_000 {
        return 1_000_000;
    }
    if n < 100_000_000_000_000 {
        return 10_000_000;
    }
    if n < 10_000_000_000_000_000 {
        return 100_000_000;
    }
    1_000_000_000
}

// The first place above a cube root: the cubes of 1, 10, 100 and so on are tried, as long as they fit into n.
fn above_cube_root(n: u64) -> u64
    requires { n < 10 ^ 18 }
    ensures { Above 3 n result }
{
    if n < 1 {
        return 1;
    }
    if n < 1_000 {
        return 10;
    }
    if n < 1_000_000 {
        return 100;
    }
    if n < 1_000_000_000 {
        return 1_000;
    }
    if n < 1_000_000_000_000 {
        return 10_000;
    }
    if n < 1_000_000_000_000_000 {
        return 100_000;
    }
    1_000_000
}

// The root so far with the digit of one place: raised while its power still fits.
fn raise_digit(p: u64, n: u64, place: u64, from: u64) -> u64
    requires { (Asked p n) × (Place p place) × (from ^ p ≤ n) }
    ensures { Raised p n place result }
{
    let mut root = from;
    while raised(p, root + place) <= n {
        root = root + place;
    }
    root
}

// The root so far with the digit of one place, where that is a place of the root.
fn with_digit(p: u64, n: u64, above: u64, place: u64, from: u64) -> u64
    requires { (Asked p n) × (Above p n above) × (PowerOfTen place) × (from ^ p ≤ n) }
    ensures { Raised p n place result }
{
    if above <= place {
        return from;
    }
    raise_digit(p, n, place, from)
}

// Each root goes place by place from the top. The places are written out, so that the compiled loops know their place and their power.
pub fn square_root(n: u64) -> u64
    requires { n < 10 ^ 18 }
    ensures { Root 2 n result }
{
    let above = above_square_root(n);
    let hundred_millions = with_digit(2, n, above, 100_000_000, 0);
    let ten_millions = with_digit(2, n, above, 10_000_000, hundred_millions);
    let millions = with_digit(2, n, above, 1_000_000, ten_millions);
    let hundred_thousands = with_digit(2, n, above, 100_000, millions);
    let ten_thousands = with_digit(2, n, above, 10_000, hundred_thousands);
    let thousands = with_digit(2, n, above, 1_000, ten_thousands);
    let hundreds = with_digit(2, n, above, 100, thousands);
    let tens = with_digit(2, n, above, 10, hundreds);
    with_digit(2, n, above, 1, tens)
}

pub fn cube_root(n: u64) -> u64
    requires { n < 10 ^ 18 }
    ensures { Root 3 n result }
{
    let above = above_cube_root(n);
    let hundred_thousands = with_digit(3, n, above, 100_000, 0);
    let ten_thousands = with_digit(3, n, above, 10_000, hundred_thousands);
    let thousands = with_digit(3, n, above, 1_000, ten_thousands);
    let hundreds = with_digit(3, n, above, 100, thousands);
    // not asked whether these are places of the root: where one is not, no trial fits
    let tens = raise_digit(3, n, 10, hundreds);
    raise_digit(3, n, 1, tens)
}
