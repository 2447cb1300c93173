// Bounds of roots from below, found by shifts. Of the root of n a is a power of two below it, and 2·a is above. The straight line from the
// power of a to that of 2·a lies above the power of every number between, since powers curve upwards; so what it has for n is at most the
// root: (2·a + n/a) / 3 for squares, and (6·a + n/a²) / 7 for cubes.
ghost use Rattle.std.specs.Prelude.{◌+◌, ◌^◌, ◌≤◌, ◌<◌};

// The place of the highest binary digit.
fn top_digit(n: u64) -> u64
    requires { 0 < n }
    ensures { (2 ^ result ≤ n) × (n < 2 ^ (result + 1)) × (result < 64) }
{
    63 - u64::leading_zeros(n) as u64
}

pub(crate) fn low_square_root(n: u64) -> u64
    ensures { result ^ 2 ≤ n }
{
    if n == 0 {
        return 0;
    }
    let place = top_digit(n) / 2;
    let below = 1 << place;
    (2 * below + (n >> place)) / 3
}

pub(crate) fn low_cube_root(n: u64) -> u64
    ensures { result ^ 3 ≤ n }
{
    if n == 0 {
        return 0;
    }
    let place = top_digit(n) / 3;
    let below = 1 << place;
    (6 * below + (n >> (2 * place))) / 7
}
