// Small numbers: the lesser and the greater of two, an element read as a call, a part of a number.
ghost use Rattle.std.specs.Prelude.{◌*◌, ◌<◌, ◌^◌, length};
ghost use Rattle.reckon.specs.Numbers.{Lesser, Greater, NumberAt, PartOf};

pub fn lesser(a: u64, b: u64) -> u64
    ensures { Lesser a b result }
{
    a.min(b)
}

pub fn greater(a: u64, b: u64) -> u64
    ensures { Greater a b result }
{
    a.max(b)
}

// The number at a place of a list, widened.
pub fn number(list: &[u32], at: usize) -> u64
    requires { at < length list.now }
    ensures { NumberAt list.now at result }
{
    u64::from(list[at])
}

// The part x / y of d, held to d. The product x * d is formed only where x is below y.
pub fn part(d: u64, x: u64, y: u64) -> u64
    requires { (0 < y) × (y * d < 2 ^ 64) }
    ensures { PartOf d x y result }
{
    if y <= x {
        return d;
    }
    x * d / y
}
