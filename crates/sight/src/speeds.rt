// The speed through a side and the arrow of four speeds, in f64: each whole number is cast with nothing lost, each quotient and each
// difference is rounded once.
ghost use Rattle.std.specs.Prelude.{◌≡◌, ◌<◌, ◌^◌, ◌≤◌};
ghost use Rattle.sight.specs.Speeds.{arrow_of, quotient_of, side_speed};
ghost use Rattle.sight.specs.Inner.Arrows.{Ranged};

// The speed towards the east and towards the north, in m/s.
#[derive(Clone, Copy)]
pub struct Arrow {
    pub east: f64,
    pub north: f64,
}

// What a side's speed goes by: what left through it, what the neighbour sent back, and both depths together, in µm.
#[derive(Clone, Copy)]
pub(crate) struct Through {
    pub(crate) out: u64,
    pub(crate) back: u64,
    pub(crate) deep: u64,
}

// The quotient of two whole numbers, rounded once.
fn quotient(above: u64, below: u64) -> f64
    requires { (above ≤ 2 ^ 53) × (below ≤ 2 ^ 53) × (0 < below) }
    ensures { result ≡ quotient_of above below }
{
    above as f64 / below as f64
}

// The speed outwards through a side of a square, in m/s: D is in m, and the step lasted some ms.
fn side_speed(square_side: u64, lasts: u64, side: Through) -> f64
    requires { Ranged square_side lasts side }
    ensures { result ≡ side_speed square_side lasts side }
{
    let out = side.out;
    let back = side.back;
    if out == back {
        return 0.0;
    }
    let below = side.deep * lasts;
    if back < out {
        return quotient(2000 * (out - back) * square_side, below);
    }
    -quotient(2000 * (back - out) * square_side, below)
}

// East speed less west speed, and north less south.
fn combined(north: f64, east: f64, south: f64, west: f64) -> Arrow
    ensures { result ≡ arrow_of north east south west }
{
    Arrow {
        east: east - west,
        north: north - south,
    }
}

// The arrow of what went through the four sides.
pub(crate) fn arrow_through(
    square_side: u64,
    lasts: u64,
    north: Through,
    east: Through,
    south: Through,
    west: Through,
) -> Arrow
    requires ranged { Ranged square_side lasts north }
    requires ranged_2 { Ranged square_side lasts east }
    requires ranged_3 { Ranged square_side lasts south }
    requires ranged_4 { Ranged square_side lasts west }
    ensures { result ≡ arrow_of (side_speed square_side lasts north) (side_speed square_side lasts east) (side_speed square_side lasts south) (side_speed square_side lasts west) }
{
    let to_north = side_speed(square_side, lasts, north);
    let to_east = side_speed(square_side, lasts, east);
    let to_south = side_speed(square_side, lasts, south);
    let to_west = side_speed(square_side, lasts, west);
    combined(to_north, to_east, to_south, to_west)
}
